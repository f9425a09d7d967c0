// The set of ballots that a process goes on by.
ghost use Rattle.std.specs.Prelude.{◌≡◌, count_by, is_some};
ghost use Rattle.memory.specs.Contents.{held};
ghost use Rattle.consensus.specs.Validity.{lowest};
ghost use Rattle.ballots.specs.Tallies.{ballot_in, among, Holds};
ghost use Rattle.cases.specs.Steps.{stands, step_at, FollowsBallots};

use crate::saying::step_by;
use crate::steps::Progress;
use ballots::{RoundBallots, count, valid_ballots};
use memory::{Memory, case_place};
use plan::Plan;
use protocol::{Ballot, PROCESSES};

/// How a process goes on in a case from the round that it is in, by the valid ballots of the
/// n - t lowest originators that have one. There is nothing if it may not go on: the case is not
/// opened or has ended, too few ballots are valid, the plan has not the process or the case, or
/// the memory is too small for the plan.
pub fn next_step(plan: &Plan, memory: &Memory, process: u64, case: u64) -> Option<Progress>
    ensures value { result ≡ step_at plan.now (held memory.now) process case }
    ensures law { FollowsBallots plan.now (held memory.now) process case result }
{
    let place = case_place(plan, process, case)?;
    let round = u64::from(memory.case_record(place).round);
    let row = valid_ballots(plan, memory, process, case, round);
    let m = plan.quorum() as usize;
    if count_all(&row) < m {
        return None;
    }
    Some(step_by(plan, round - 1, count(&choose_lowest(&row, m))))
}

// How many ballots there are.
fn count_all(row: &[Option<Ballot>]) -> usize
    ensures { result ≡ count_by is_some row.now }
{
    let mut count = 0;
    for cast in row {
        if cast.is_some() {
            count += 1;
        }
    }
    count
}

// The first m ballots of a row.
fn choose_lowest(row: &RoundBallots, m: usize) -> RoundBallots
    ensures { Holds (among (lowest m (stands (ballot_in row.now))) (ballot_in row.now)) result }
{
    let mut chosen = [None; PROCESSES as usize];
    let mut seen = 0;
    for (k, cast) in row.iter().enumerate() {
        chosen[k] = cast.filter(|_| seen < m);
        seen += usize::from(cast.is_some());
    }
    chosen
}

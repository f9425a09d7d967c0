// What a set of n - t ballots says, by how many it has of each.
ghost use Rattle.std.specs.Prelude.{◌≡◌};
ghost use Rattle.protocol.specs.Phases.{kind};
ghost use Rattle.consensus.specs.Rounds.{ahead};
ghost use Rattle.ballots.specs.Tallies.{part};
ghost use Rattle.cases.specs.Steps.{proposed, over, saying, third_step, step_by};

use crate::steps::Progress;
use ballots::Tally;
use plan::Plan;
use protocol::{Ballot, Kind, Side};

// By a set of ballots of a round. Rounds count from 0 here.
#[tactic(auto, unfolding(crate::specs::Steps::step_by))]
pub(crate) fn step_by(plan: &Plan, round: u64, tally: Tally) -> Progress
    ensures { result ≡ step_by plan.now.n plan.now.t (kind round) (part tally) }
{
    match Kind::of_round(round) {
        Kind::First => saying(Ballot::vote(side_ahead(tally))),
        Kind::Second => saying(proposed(plan, tally)),
        Kind::Third => third_step(plan, tally),
    }
}

fn saying(ballot: Ballot) -> Progress
    ensures { result ≡ saying ballot }
{
    Progress {
        next: Some(ballot),
        forced: None,
        decides: None,
    }
}

fn side_ahead(tally: Tally) -> Side
    ensures { result ≡ ahead (part tally) }
{
    if tally.release > tally.keep {
        Side::Release
    } else {
        Side::Keep
    }
}

// A proposal of the side that more than half of all n voted for, or open.
fn proposed(plan: &Plan, tally: Tally) -> Ballot
    ensures { result ≡ proposed plan.now.n (part tally) }
{
    let keep = 2 * u64::from(tally.keep);
    let release = 2 * u64::from(tally.release);
    side_over(plan.n(), keep, release).map_or(Ballot::Open, Ballot::proposal)
}

fn third_step(plan: &Plan, tally: Tally) -> Progress
    ensures { result ≡ third_step plan.now.t (part tally) }
{
    let keep = u64::from(tally.propose_keep);
    let release = u64::from(tally.propose_release);
    let forced = side_over(plan.t(), keep, release);
    Progress {
        next: forced.map(Ballot::vote),
        forced,
        decides: side_over(2 * plan.t(), keep, release),
    }
}

// The side whose number is above a bound, keep if both are.
fn side_over(bound: u64, keep: u64, release: u64) -> Option<Side>
    ensures { result ≡ over bound keep release }
{
    if keep > bound {
        Some(Side::Keep)
    } else if release > bound {
        Some(Side::Release)
    } else {
        None
    }
}

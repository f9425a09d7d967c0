// The ballots of a round at a process, in a row by originator.
ghost use Rattle.std.specs.Prelude.{◌≡◌, ◌-◌, ◌<◌, ◌≤◌};
ghost use Rattle.protocol.specs.declared.messages.Subject.TheVariants as subject;
ghost use Rattle.memory.specs.Contents.{held};
ghost use Rattle.ballots.specs.Tallies.{Holds};
ghost use Rattle.ballots.specs.Votes.{sifted};
ghost use Rattle.ballots.specs.Places.{accepted_within, ballots_at, covers, valid_at, ValidRow};

use crate::allowing::{VOTES, allowed_after, sift};
use crate::counting::count;
use crate::tallies::{Allowed, RoundBallots};
use memory::{Memory, is_within, place_of};
use plan::Plan;
use protocol::{PROCESSES, Subject};

/// The ballots of a round, counted from 1, that are valid at a process. There are none if the
/// plan has not the process, the case or the round, or if the memory is too small for the plan.
pub fn valid_ballots(
    plan: &Plan,
    memory: &Memory,
    process: u64,
    case: u64,
    round: u64,
) -> RoundBallots
    ensures value { Holds (valid_at plan.now (held memory.now) process case round) result }
    ensures valid { ValidRow plan.now (held memory.now) process case round result }
{
    if !is_covered(plan, memory, process, case, round) {
        return [None; PROCESSES as usize];
    }
    let accepted = AcceptedBallots {
        plan,
        memory,
        process,
        case,
    };
    let mut row = accepted.sifted_row(1, VOTES);
    for before in 1..round {
        let allowed = allowed_after(plan, before - 1, count(&row));
        row = accepted.sifted_row(before + 1, allowed);
    }
    row
}

fn is_covered(plan: &Plan, memory: &Memory, process: u64, case: u64, round: u64) -> bool
    ensures { result ≡ covers plan.now (held memory.now) process case round }
{
    let own = Subject::Ballot {
        originator: process,
        case,
        round,
    };
    is_within(plan, own) && memory.is_enough(plan)
}

// What a process has accepted in a case.
#[derive(Drop)]
struct AcceptedBallots<'a, 'm> {
    plan: &'a Plan,
    memory: &'a Memory<'m>,
    process: u64,
    case: u64,
    ghost known: { process < plan.now.n },
}

impl<'a, 'm> AcceptedBallots<'a, 'm> {
    // The accepted ballots of a round that are allowed in it.
    fn sifted_row(&self, round: u64, allowed: Allowed) -> RoundBallots
        requires { 1 ≤ round }
        ensures { Holds (λ k. sifted allowed (ballots_at self.now.plan.now (held self.now.memory.now) self.now.process self.now.case k (round - 1))) result }
    {
        let mut row = [None; PROCESSES as usize];
        for originator in 0..self.plan.n() {
            row[originator as usize] = sift(allowed, self.body(originator, round));
        }
        row
    }

    fn body(&self, originator: u64, round: u64) -> Option<u64>
        ensures { result ≡ accepted_within self.now.plan.now (held self.now.memory.now) self.now.process (subject.Ballot originator self.now.case round) }
    {
        let subject = Subject::Ballot {
            originator,
            case: self.case,
            round,
        };
        let place = place_of(self.plan, self.process, subject)?;
        self.memory.stage(place.record).accepted()
    }
}

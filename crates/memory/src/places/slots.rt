// Finding the places of a subject and of a case.
ghost use Rattle.std.specs.Prelude.{◌≡◌, ◌<◌, true};
ghost use Rattle.memory.specs.Places.{within, subject_number, record_place, record_places, place_of, case_place_of, Laid};

use crate::places::Place;
use plan::Plan;
use protocol::Subject;

/// Whether the plan has the subject: its originator, its serial or its case, and its round.
pub fn is_within(plan: &Plan, subject: Subject) -> bool
    ensures { result ≡ within plan.now subject }
{
    match subject {
        Subject::Item { originator, serial } => originator < plan.n() && serial < plan.serials(),
        Subject::Ballot {
            originator,
            case,
            round,
        } => {
            let rounds = 1..=plan.rounds();
            originator < plan.n() && case < plan.cases() && rounds.contains(&round)
        }
    }
}

/// The places of a process for a subject, if the plan has both.
pub fn place_of(plan: &Plan, process: u64, subject: Subject) -> Option<Place>
    ensures value { result ≡ place_of plan.now process subject }
    ensures laid { Laid plan.now }
{
    let exists = process < plan.n() && is_within(plan, subject);
    exists.then(|| locate(plan, process, subject))
}

fn locate(plan: &Plan, process: u64, subject: Subject) -> Place
    requires process { process < plan.now.n }
    requires subject { within plan.now subject ≡ true }
    ensures { result ≡ record_places plan.now (record_place plan.now process subject) }
{
    let n = plan.n();
    let subjects = plan.serials() + plan.rounds() * plan.cases();
    let row = process * n + subject.originator();
    let number = number_of(plan, subject);
    let record = row * subjects + number;
    let echoes = 2 * n * record;
    Place {
        record: record as usize,
        echoes: echoes as usize,
        readies: (echoes + n) as usize,
    }
}

// The subject's number among those of its originator.
fn number_of(plan: &Plan, subject: Subject) -> u64
    requires { within plan.now subject ≡ true }
    ensures { result ≡ subject_number plan.now subject }
{
    match subject {
        Subject::Item { serial, .. } => serial,
        Subject::Ballot { case, round, .. } => {
            plan.serials() + plan.rounds() * case + (round - 1)
        }
    }
}

/// The place of a process's record of a case in `Memory::cases`, if the plan has both.
pub fn case_place(plan: &Plan, process: u64, case: u64) -> Option<usize>
    ensures value { result ≡ case_place_of plan.now process case }
    ensures laid { Laid plan.now }
{
    let exists = process < plan.n() && case < plan.cases();
    exists.then(|| (process * plan.cases() + case) as usize)
}

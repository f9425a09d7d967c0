//! Reading what a process has accepted.
#![tactic(auto)]

ghost use Rattle.std.specs.Prelude.{◌≡◌};
ghost use Rattle.memory.specs.Contents.{held};
ghost use Rattle.reading.specs.Answers.{Located, answer, ReadsAccepted};

use item::Item;
use line::check_correct;
use memory::{Memory, place_of};
use plan::Line;
use protocol::{Refusal, Subject};

pub mod readings;

pub use readings::Reading;

/// What a correct process has accepted for a subject, as a value. Refused if the memory is too
/// small (2), there is no such process (4), it is faulty (6), or the plan has not the subject
/// (7).
pub fn read<I: Item>(
    line: &Line,
    memory: &Memory,
    process: u64,
    subject: Subject,
) -> Result<Reading<I>, Refusal>
    ensures value { result ≡ answer I.unpacked line.now (held memory.now) process subject }
    ensures alike { ReadsAccepted I.unpacked line.now (held memory.now) process subject result }
{
    let at = locate(line, memory, process, subject)?;
    let Some(body) = memory.stage(at).accepted() else {
        return Ok(Reading::Nothing);
    };
    let Some(value) = I::unpack(body) else {
        return Ok(Reading::Unreadable);
    };
    Ok(Reading::Value(value))
}

// Where the memory has the record that a correct process keeps of a subject.
fn locate(line: &Line, memory: &Memory, process: u64, subject: Subject) -> Result<usize, Refusal>
    ensures { Located line.now (held memory.now) process subject result }
{
    check_correct(line, memory, process)?;
    let place = place_of(&line.plan(), process, subject).ok_or(Refusal::SubjectOutOfPlan)?;
    Ok(place.record)
}

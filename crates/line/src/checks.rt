// What calls on a line check.
ghost use Rattle.std.specs.Prelude.{◌≡◌, ◌<◌, OnOk, ok_or};
ghost use Rattle.protocol.specs.declared.refusals.Refusal.TheVariants.{SubjectOutOfPlan};
ghost use Rattle.memory.specs.Contents.{held};
ghost use Rattle.memory.specs.Places.{case_place_of};
ghost use Rattle.rules.specs.Promises.{Correct};
ghost use Rattle.rules.specs.Turns.{process_tests, correct_tests};
ghost use Rattle.line.specs.Checks.{TestsAnswer, RoomForAll};

use carrier::Carrier;
use memory::{Memory, case_place};
use plan::Line;
use protocol::Refusal;

/// Refused where the memory is too small (2), and then where `process` is not below n (4).
pub fn check_process(line: &Line, memory: &Memory, process: u64) -> Result<(), Refusal>
    ensures first { TestsAnswer result (process_tests line.now (held memory.now) process) }
    ensures within { OnOk result (process < line.now.plan.n) }
{
    let plan = line.plan();
    if !memory.is_enough(&plan) {
        return Err(Refusal::MemoryTooSmall);
    }
    if process >= plan.n() {
        return Err(Refusal::ProcessOutOfRange);
    }
    Ok(())
}

/// Refused as `check_process`, and then where the process is faulty (6).
pub fn check_correct(line: &Line, memory: &Memory, process: u64) -> Result<(), Refusal>
    ensures first { TestsAnswer result (correct_tests line.now (held memory.now) process) }
    ensures correct { OnOk result (Correct line.now process) }
{
    check_process(line, memory, process)?;
    if line.is_faulty(process) {
        return Err(Refusal::WrongRole);
    }
    Ok(())
}

/// The place of a process's record of a case among a memory's case records. Refused where `case` is
/// not below c, or `process` not below n (7 for both: ask `check_process` about a process first).
pub fn find_case(line: &Line, process: u64, case: u64) -> Result<usize, Refusal>
    ensures { result ≡ ok_or (case_place_of line.now.plan process case) SubjectOutOfPlan }
{
    case_place(&line.plan(), process, case).ok_or(Refusal::SubjectOutOfPlan)
}

// Refused where the carrier has no room for a message to each process.
pub(crate) fn check_room_for_all<C: Carrier>(line: &Line, carrier: &C) -> Result<(), Refusal>
    ensures { RoomForAll result line.now (C.capacity carrier.now) (C.waiting carrier.now) }
{
    if u64::from(carrier.free()) < line.plan().n() {
        return Err(Refusal::NoRoom);
    }
    Ok(())
}

// Opening a case.
ghost use Rattle.std.specs.Prelude.{◌≡◌, OnErr, OnOk};
ghost use Rattle.carrier.specs.Posting.{Posts};
ghost use Rattle.memory.specs.Contents.{held};
ghost use Rattle.rules.specs.Turns.{first_ballots};
ghost use Rattle.rules.specs.Answers.{CaseOpening};

use crate::checks::{check_correct, check_room_for_all, find_case};
use crate::sending::send_initials;
use carrier::Carrier;
use memory::{CaseRecord, Memory};
use plan::Line;
use protocol::{Refusal, Subject};

/// A correct process opens a case and votes in its first round: 0 is keep, 1 release. Answers how
/// many messages were posted, which is n.
///
/// Refused, in this order: the memory is too small (2), `process` is not below n (4) or faulty (6),
/// `case` is not below c (7), `vote` is neither 0 nor 1 (9), the case was opened before (11), free
/// is below n (13).
pub fn open_case<C: Carrier>(
    line: &Line,
    memory: &mut Memory,
    carrier: &mut C,
    process: u64,
    case: u64,
    vote: u64,
) -> Result<u64, Refusal>
    ensures turn { CaseOpening line.now (C.capacity carrier.old) (held memory.old) (C.waiting carrier.old) process case vote result (held memory.new) (C.waiting carrier.new) }
    ensures kept { C.capacity carrier.new ≡ C.capacity carrier.old }
    ensures untouched { OnErr result (carrier.new ≡ carrier.old) }
    ensures order { OnOk result (Posts C.posting carrier.old (first_ballots line.now process case vote) carrier.new) }
{
    check_correct(line, memory, process)?;
    let at = find_case(line, process, case)?;
    if vote > 1 {
        return Err(Refusal::ValueOutOfRange);
    }
    let record = memory.case_record(at);
    if record.round != 0 {
        return Err(Refusal::CaseAlreadyOpened);
    }
    check_room_for_all(line, carrier)?;
    memory.set_case_record(at, CaseRecord { round: 1, ..record });
    let subject = Subject::Ballot {
        originator: process,
        case,
        round: 1,
    };
    Ok(send_initials(line, carrier, subject, vote))
}

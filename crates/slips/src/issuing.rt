// Issuing a slip.
ghost use Rattle.std.specs.Prelude.{◌≡◌, None, OnOk};
ghost use Rattle.memory.specs.Contents.{held};
ghost use Rattle.slips.specs.Slips.{may_issue, back_refusal, Issued, Truthful};

use crate::slip::ReleaseSlip;
use line::{check_correct, find_case};
use memory::{CaseRecord, Memory, Slip};
use plan::Line;
use protocol::{Refusal, Side};

/// Issues the slip of a correct process that decided release. Refused if the memory is too small
/// (2), there is no such process (4), it is faulty (6), the plan has not the case (7), the
/// process did not decide release, or its slip is out or was handed over (14).
pub fn issue(
    line: &Line,
    memory: &mut Memory,
    process: u64,
    case: u64,
) -> Result<ReleaseSlip, Refusal>
    ensures answer { Issued line.now (held memory.old) process case result (held memory.new) }
    ensures returnable { OnOk result (back_refusal line.now (held memory.new) process case ≡ None) }
    ensures truthful { Truthful line.now (held memory.old) process case result }
{
    check_correct(line, memory, process)?;
    let at = find_case(line, process, case)?;
    let record = memory.case_record(at);
    if !may_issue(record) {
        return Err(Refusal::SlipRefused);
    }
    memory.set_case_record(
        at,
        CaseRecord {
            slip: Slip::Out,
            ..record
        },
    );
    Ok(ReleaseSlip { process, case })
}

// Whether release was decided and no slip is out or was handed over.
fn may_issue(record: CaseRecord) -> bool
    ensures { result ≡ may_issue «record» }
{
    let released = record
        .decision
        .is_some_and(|decision| decision.side == Side::Release);
    released && record.slip == Slip::Absent
}

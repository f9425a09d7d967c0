// Giving a slip back.
ghost use Rattle.memory.specs.Contents.{held};
ghost use Rattle.memory.specs.declared.records.Slip.TheVariants.{Absent, HandedOver};
ghost use Rattle.slips.specs.Slips.{GivenBack, Spent};

use crate::slip::ReleaseSlip;
use line::{check_process, find_case};
use memory::{CaseRecord, Memory, Slip};
use plan::Line;
use protocol::Refusal;

/// Ends a slip for which the item was handed over. No other can be issued for the case. Refused,
/// with the slip given back, if the memory is too small (2), there is no such process (4), the
/// plan has not the case (7), or the slip is not out on this line (14).
pub fn hand_over(
    line: &Line,
    memory: &mut Memory,
    slip: ReleaseSlip,
) -> Result<(), (Refusal, ReleaseSlip)>
    ensures { GivenBack HandedOver line.now (held memory.old) slip result (held memory.new) }
{
    give_back(line, memory, slip, Slip::HandedOver)
}

/// Ends a slip that was not used, so that another can be issued. Refused as `hand_over` is.
pub fn put_back(
    line: &Line,
    memory: &mut Memory,
    slip: ReleaseSlip,
) -> Result<(), (Refusal, ReleaseSlip)>
    ensures { GivenBack Absent line.now (held memory.old) slip result (held memory.new) }
{
    give_back(line, memory, slip, Slip::Absent)
}

// Ends the slip and leaves its state. A refusal gives the slip back.
fn give_back(
    line: &Line,
    memory: &mut Memory,
    slip: ReleaseSlip,
    state: Slip,
) -> Result<(), (Refusal, ReleaseSlip)>
    ensures { GivenBack state line.now (held memory.old) slip result (held memory.new) }
{
    let ReleaseSlip { process, case } = slip;
    spend(line, memory, process, case, state).map_err(|refusal| (
        refusal,
        ReleaseSlip { process, case },
    ))
}

// Leaves the state of a slip that is out.
fn spend(
    line: &Line,
    memory: &mut Memory,
    process: u64,
    case: u64,
    state: Slip,
) -> Result<(), Refusal>
    ensures { Spent line.now (held memory.old) process case state result (held memory.new) }
{
    check_process(line, memory, process)?;
    let at = find_case(line, process, case)?;
    let record = memory.case_record(at);
    if record.slip != Slip::Out {
        return Err(Refusal::SlipRefused);
    }
    memory.set_case_record(
        at,
        CaseRecord {
            slip: state,
            ..record
        },
    );
    Ok(())
}

// Opening a line.
ghost use Rattle.memory.specs.Contents.{held};
ghost use Rattle.line.specs.Opening.{OpensLine, Promised};

use carrier::{Carrier, is_idle};
use memory::Memory;
use plan::{Draft, Line};
use protocol::Refusal;

/// Clears the places of memory that the plan needs, and makes the draft a line. The carrier is only
/// looked at. A refusal gives the draft back, to be marked further or opened elsewhere.
///
/// Refused, in this order: the memory is too small (2), a message waits in the carrier (3).
pub fn open_line<C: Carrier>(
    draft: Draft,
    memory: &mut Memory,
    carrier: &C,
) -> Result<Line, (Refusal, Draft)>
    ensures answer { OpensLine draft (held memory.old) (C.waiting carrier.now) result (held memory.new) }
    ensures promise { Promised (C.capacity carrier.now) result (held memory.new) }
{
    let plan = draft.plan();
    if !memory.is_enough(&plan) {
        return Err((Refusal::MemoryTooSmall, draft));
    }
    if !is_idle(carrier) {
        return Err((Refusal::MessageWaiting, draft));
    }
    memory.clear(&plan);
    Ok(Line::from(draft))
}

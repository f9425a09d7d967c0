// Forging a message.
ghost use Rattle.std.specs.Prelude.{◌≡◌, [], ◌∷◌, OnErr, OnOk};
ghost use Rattle.carrier.specs.Posting.{Posts};
ghost use Rattle.memory.specs.Contents.{held};
ghost use Rattle.rules.specs.Answers.{Forgery};

use crate::checks::check_process;
use carrier::Carrier;
use memory::{Memory, is_within};
use plan::Line;
use protocol::{Message, Refusal};

/// A faulty process posts any message of its own. Answers how many were posted, which is 1. The
/// memory is only looked at for its size.
///
/// Refused, in this order: the memory is too small (2), the sender or the addressee is not below n
/// (4), the sender is correct (6), the subject lies outside the plan (7), nothing is free (13).
pub fn forge<C: Carrier>(
    line: &Line,
    memory: &Memory,
    carrier: &mut C,
    message: Message,
) -> Result<u64, Refusal>
    ensures turn { Forgery line.now (C.capacity carrier.old) (held memory.now) (C.waiting carrier.old) message result (held memory.now) (C.waiting carrier.new) }
    ensures kept { C.capacity carrier.new ≡ C.capacity carrier.old }
    ensures untouched { OnErr result (carrier.new ≡ carrier.old) }
    ensures order { OnOk result (Posts C.posting carrier.old (message ∷ []) carrier.new) }
{
    let plan = line.plan();
    check_process(line, memory, message.sender())?;
    if message.addressee() >= plan.n() {
        return Err(Refusal::ProcessOutOfRange);
    }
    if !line.is_faulty(message.sender()) {
        return Err(Refusal::WrongRole);
    }
    if !is_within(&plan, message.subject()) {
        return Err(Refusal::SubjectOutOfPlan);
    }
    if carrier.free() == 0 {
        return Err(Refusal::NoRoom);
    }
    carrier.post(message).unwrap();
    Ok(1)
}

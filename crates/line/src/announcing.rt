// Announcing an item.
ghost use Rattle.std.specs.Prelude.{◌≡◌, IfOk, OnErr, OnOk};
ghost use Rattle.carrier.specs.Posting.{Posts};
ghost use Rattle.memory.specs.Contents.{held};
ghost use Rattle.rules.specs.Turns.{initials};
ghost use Rattle.rules.specs.Answers.{Announcement};

use crate::checks::{check_correct, check_room_for_all};
use crate::sending::send_initials;
use carrier::Carrier;
use item::Item;
use memory::Memory;
use plan::Line;
use protocol::{Refusal, Subject};
use rules::Announced;

/// A correct process sends a value to all, under its next serial. Answers this serial, from 0 to
/// s - 1, and how many messages were posted, which is n.
///
/// Refused, in this order: the memory is too small (2), `process` is not below n (4) or faulty (6),
/// its serials are used up (10), free is below n (13).
pub fn announce<C: Carrier, I: Item>(
    line: &Line,
    memory: &mut Memory,
    carrier: &mut C,
    process: u64,
    value: &I,
) -> Result<Announced, Refusal>
    ensures turn { Announcement line.now (C.capacity carrier.old) (held memory.old) (C.waiting carrier.old) process (I.packed value.now) result (held memory.new) (C.waiting carrier.new) }
    ensures kept { C.capacity carrier.new ≡ C.capacity carrier.old }
    ensures untouched { OnErr result (carrier.new ≡ carrier.old) }
    ensures fits { OnOk result (I.ok value.now) }
    ensures order { IfOk result (λ a. Posts C.posting carrier.old (initials line.now process a.serial (I.packed value.now)) carrier.new) }
{
    check_correct(line, memory, process)?;
    let next = memory.next_serial(process as usize);
    let serial = u64::from(next);
    if serial >= line.plan().serials() {
        return Err(Refusal::SerialsUsedUp);
    }
    check_room_for_all(line, carrier)?;
    memory.set_next_serial(process as usize, next + 1);
    let subject = Subject::Item {
        originator: process,
        serial,
    };
    let posted = send_initials(line, carrier, subject, value.pack());
    Ok(Announced { serial, posted })
}

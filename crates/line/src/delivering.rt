// Delivering a message.
ghost use Rattle.std.specs.Prelude.{◌≡◌, ◌*◌, length, OnErr};
ghost use Rattle.memory.specs.Contents.{held};
ghost use Rattle.rules.specs.Turns.{delivery_tests, replies};
ghost use Rattle.rules.specs.Answers.{Delivery};
ghost use Rattle.line.specs.Checks.{LastTestsAnswer};
ghost use Rattle.line.specs.Sent.{Sent, HasRoom};

use crate::checks::check_process;
use crate::sending::pass_on;
use broadcast::{Reaction, receive};
use carrier::Carrier;
use memory::Memory;
use plan::Line;
use protocol::{Message, Refusal, Step};
use rules::Delivered;

/// Takes one of the messages that wait for a process, and hands it over. A correct process does
/// with it what its stage and the message's step say; a faulty one drops it, and so does a correct
/// one where the sender or the subject lies outside the plan. The carrier chooses the message, by
/// `pick` if it looks at it. Answers how many messages were posted (0, n or 2n), and whether the
/// process accepted a body.
///
/// Refused, in this order: the memory is too small (2), `process` is not below n (4), nothing waits
/// for it (8), it is correct and free is below 2n (13). The place of the message that is taken does
/// not count as free.
pub fn deliver<C: Carrier>(
    line: &Line,
    memory: &mut Memory,
    carrier: &mut C,
    process: u64,
    pick: u64,
) -> Result<Delivered, Refusal>
    ensures turn { Delivery line.now (C.capacity carrier.old) (held memory.old) (C.waiting carrier.old) C.posting C.taking process pick result carrier.old (held memory.new) (C.waiting carrier.new) carrier.new }
    ensures kept { C.capacity carrier.new ≡ C.capacity carrier.old }
    ensures untouched { OnErr result (carrier.new ≡ carrier.old) }
{
    check_process(line, memory, process)?;
    check_delivery(line, carrier, process)?;
    let message = carrier.take(process, pick).unwrap();
    if line.is_faulty(process) {
        return Ok(Delivered {
            posted: 0,
            accepted: false,
        });
    }
    let reaction = receive(&line.plan(), memory, process, &message);
    let posted = reply(line, carrier, &message, reaction);
    Ok(Delivered {
        posted,
        accepted: reaction.accepted,
    })
}

// Refused where nothing waits for the process, and where a correct one may have to send more than
// there is room for.
fn check_delivery<C: Carrier>(line: &Line, carrier: &C, process: u64) -> Result<(), Refusal>
    ensures { LastTestsAnswer result (delivery_tests line.now process (C.capacity carrier.now) (C.waiting carrier.now)) }
{
    if carrier.waiting_for(process) == 0 {
        return Err(Refusal::NothingWaiting);
    }
    if !line.is_faulty(process) && u64::from(carrier.free()) < 2 * line.plan().n() {
        return Err(Refusal::NoRoom);
    }
    Ok(())
}

// Sends what the reaction says, and answers how many messages these are.
fn reply<C: Carrier>(line: &Line, carrier: &mut C, message: &Message, reaction: Reaction) -> u64
    requires { HasRoom (2 * line.now.plan.n) (C.capacity carrier.old) (C.waiting carrier.old) }
    ensures sent { Sent C.waiting C.capacity C.posting carrier.old (replies line.now.plan.n message.now reaction) carrier.new }
    ensures count { result ≡ length (replies line.now.plan.n message.now reaction) }
{
    let mut posted = 0;
    if reaction.echo {
        posted += pass_on(line, carrier, message, Step::Echo);
    }
    if reaction.ready {
        posted += pass_on(line, carrier, message, Step::Ready);
    }
    posted
}

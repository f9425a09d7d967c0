// Sending to all processes of a line.
ghost use Rattle.std.specs.Prelude.{◌≡◌, ◌<◌, length};
ghost use Rattle.protocol.specs.Messages.{originator_of};
ghost use Rattle.protocol.specs.Sending.{to_all};
ghost use Rattle.protocol.specs.declared.messages.Step.TheVariants.{Initial};
ghost use Rattle.line.specs.Sent.{Sent, HasRoom};

use carrier::Carrier;
use plan::Line;
use protocol::{Message, Step, Subject};

// The originator of a subject sends its body to all. Answers how many messages these are.
pub(crate) fn send_initials<C: Carrier>(
    line: &Line,
    carrier: &mut C,
    subject: Subject,
    body: u64,
) -> u64
    requires sender { originator_of subject < 16 }
    requires room { HasRoom line.now.plan.n (C.capacity carrier.old) (C.waiting carrier.old) }
    ensures sent { Sent C.waiting C.capacity C.posting carrier.old (to_all line.now.plan.n (originator_of subject) Initial subject body) carrier.new }
    ensures count { result ≡ length (to_all line.now.plan.n (originator_of subject) Initial subject body) }
{
    let sender = subject.originator();
    send_to_all(line, carrier, sender, Step::Initial, subject, body)
}

// The addressee of a message sends the message's body on to all, in the given step. Answers how
// many messages these are.
pub(crate) fn pass_on<C: Carrier>(
    line: &Line,
    carrier: &mut C,
    message: &Message,
    step: Step,
) -> u64
    requires room { HasRoom line.now.plan.n (C.capacity carrier.old) (C.waiting carrier.old) }
    ensures sent { Sent C.waiting C.capacity C.posting carrier.old (to_all line.now.plan.n message.now.addressee step message.now.subject message.now.body) carrier.new }
    ensures count { result ≡ length (to_all line.now.plan.n message.now.addressee step message.now.subject message.now.body) }
{
    send_to_all(
        line,
        carrier,
        message.addressee(),
        step,
        message.subject(),
        message.body(),
    )
}

// Posts a message to each process of the line, from 0 up. Answers how many messages these are.
fn send_to_all<C: Carrier>(
    line: &Line,
    carrier: &mut C,
    sender: u64,
    step: Step,
    subject: Subject,
    body: u64,
) -> u64
    requires sender { sender < 16 }
    requires room { HasRoom line.now.plan.n (C.capacity carrier.old) (C.waiting carrier.old) }
    ensures sent { Sent C.waiting C.capacity C.posting carrier.old (to_all line.now.plan.n sender step subject body) carrier.new }
    ensures count { result ≡ length (to_all line.now.plan.n sender step subject body) }
{
    let n = line.plan().n();
    for addressee in 0..n {
        let message = Message::new(sender, addressee, step, subject, body).unwrap();
        carrier.post(message).unwrap();
    }
    n
}

// Messages, and what they are about.
ghost use Rattle.std.specs.Prelude.{◌≡◌, ◌<◌};

use crate::refusals::Refusal;

/// The most processes a line can have: they are numbered from 0, below this.
pub const PROCESSES: u64 = 16;

/// What a message does for its broadcast.
#[derive(Clone, Copy, Debug, PartialEq, Eq)]
pub enum Step {
    /// Begins it: the originator tells its body.
    Initial,
    /// Repeats a body that was told.
    Echo,
    /// Says that enough processes sent echoes or readies of this body.
    Ready,
}

/// What a message is about. Its numbers are any of 64 bits, so it may lie outside every plan.
#[derive(Clone, Copy, Debug, PartialEq, Eq)]
pub enum Subject {
    /// An item that the originator announces, the serial counting its items from 0.
    Item {
        originator: u64,
        serial: u64,
    },
    /// The originator's ballot in a case, cases counted from 0, in a round counted from 1.
    Ballot {
        originator: u64,
        case: u64,
        round: u64,
    },
}

impl Subject {
    ghost use Rattle.protocol.specs.Messages.{originator_of};

    /// The process whose broadcast it is.
    pub fn originator(&self) -> u64
        ensures { result ≡ originator_of self.now }
    {
        match *self {
            Subject::Item { originator, .. } => originator,
            Subject::Ballot { originator, .. } => originator,
        }
    }
}

/// One message from a process to another or to itself. Both are below 16, whatever the plan.
#[derive(Clone, Copy, Debug, PartialEq, Eq)]
pub struct Message {
    sender: u8,
    addressee: u8,
    step: Step,
    subject: Subject,
    body: u64,
    ghost sent: { sender < 16 },
    ghost addressed: { addressee < 16 },
}

impl Message {
    ghost use Rattle.protocol.specs.Messages.{made};

    /// What places lent to a carrier are filled with. It is no message that waits there.
    pub const BLANK: Message = Message {
        sender: 0,
        addressee: 0,
        step: Step::Initial,
        subject: Subject::Item {
            originator: 0,
            serial: 0,
        },
        body: 0,
    };

    /// A message with these parts. Refused (4) if the sender or the addressee is 16 or above.
    pub fn new(
        sender: u64,
        addressee: u64,
        step: Step,
        subject: Subject,
        body: u64,
    ) -> Result<Message, Refusal>
        ensures { result ≡ made sender addressee step subject body }
    {
        if sender >= PROCESSES || addressee >= PROCESSES {
            return Err(Refusal::ProcessOutOfRange);
        }
        Ok(Message {
            sender: sender as u8,
            addressee: addressee as u8,
            step,
            subject,
            body,
        })
    }

    /// The process that the message says it is from, below 16.
    pub fn sender(&self) -> u64
        ensures { result ≡ self.now.sender }
    {
        u64::from(self.sender)
    }

    /// The process that the message is for, below 16.
    pub fn addressee(&self) -> u64
        ensures { result ≡ self.now.addressee }
    {
        u64::from(self.addressee)
    }

    /// Whether it is an initial, an echo or a ready.
    pub fn step(&self) -> Step
        ensures { result ≡ self.now.step }
    {
        self.step
    }

    /// What it is about.
    pub fn subject(&self) -> Subject
        ensures { result ≡ self.now.subject }
    {
        self.subject
    }

    /// The number that it carries: what an item or a ballot was packed to, or any other.
    pub fn body(&self) -> u64
        ensures { result ≡ self.now.body }
    {
        self.body
    }
}

// Why a call was refused.
ghost use Rattle.std.specs.Prelude.{◌≡◌, Some};
ghost use Rattle.protocol.specs.Refusals.{refusal_number, sentence};

use std::error::Error;
use std::fmt;

/// Why a call did nothing. Where several reasons fit, the one with the lowest number is returned.
#[derive(Clone, Copy, Debug, PartialEq, Eq)]
pub enum Refusal {
    /// A number of the plan is out of its range, or t is not below a third of n.
    PlanOutOfRange = 1,
    /// A part of the memory is shorter than the plan needs, or a script has more than 4,096 bytes.
    MemoryTooSmall = 2,
    /// At the opening a message already waits in the carrier.
    MessageWaiting = 3,
    /// The process is not below n; where a message is made, not below 16.
    ProcessOutOfRange = 4,
    /// The process is marked already, or t marks stand.
    MarkRefused = 5,
    /// A correct process is to forge, or a faulty one to do what only correct ones do.
    WrongRole = 6,
    /// The plan has no such subject or case.
    SubjectOutOfPlan = 7,
    /// No message waits for the process.
    NothingWaiting = 8,
    /// A tag, a field of a record, a vote or a ballot's number is out of its range.
    ValueOutOfRange = 9,
    /// The process has announced as many items as the plan has serials.
    SerialsUsedUp = 10,
    /// The process has opened the case before.
    CaseAlreadyOpened = 11,
    /// The case is not opened or has ended, or fewer than n - t ballots of its round are valid.
    MayNotAdvance = 12,
    /// The carrier has less room than the call may need.
    NoRoom = 13,
    /// No slip may be issued for the case, or the slip that is given back is not out.
    SlipRefused = 14,
    /// A line of a script cannot be read.
    NotRead = 15,
    /// A turn of a script comes before a line is opened, or a second line is opened.
    LineOutOfPlace = 16,
}

impl Refusal {
    /// Its number, from 1 to 16.
    pub fn number(self) -> u8
        ensures { result ≡ refusal_number self }
    {
        self as u8
    }

    // What went wrong, in a sentence.
    fn sentence(self) -> &'static str
        ensures { result.now ≡ sentence self }
    {
        match self {
            Refusal::PlanOutOfRange => "The plan is outside its ranges.",
            Refusal::MemoryTooSmall => "The memory is smaller than what is needed.",
            Refusal::MessageWaiting => "A message already waits in the carrier.",
            Refusal::ProcessOutOfRange => "There is no process of that number.",
            Refusal::MarkRefused => "The process is marked already, or no more may be marked.",
            Refusal::WrongRole => "A correct process may not do this, or only a correct one may.",
            Refusal::SubjectOutOfPlan => "The subject is outside the plan.",
            Refusal::NothingWaiting => "Nothing waits for the process.",
            Refusal::ValueOutOfRange => "A value is out of its range.",
            Refusal::SerialsUsedUp => "All serials of the process are used.",
            Refusal::CaseAlreadyOpened => "The process opened the case before.",
            Refusal::MayNotAdvance => "The process may not advance in the case.",
            Refusal::NoRoom => "The carrier has too little room.",
            Refusal::SlipRefused => "No release slip may be issued or given back here.",
            Refusal::NotRead => "The line of the script cannot be read.",
            Refusal::LineOutOfPlace => "A turn comes before a line is opened, or a second line is.",
        }
    }
}

impl fmt::Display for Refusal {
    ghost output = { λ r. Some (sentence r) };

    fn fmt<W: fmt::Write>(&self, f: &mut fmt::Formatter<W>) -> fmt::Result {
        f.write_str(self.sentence())
    }
}

impl Error for Refusal {}

// Turns as values, and their answers.
use protocol::Message;
use rules::{Advanced, Announced, Delivered};

/// What a turn is told: the call that it makes, and its numbers. `I` is the item type of the values
/// that are announced.
#[derive(Clone, Copy, Debug, Drop, PartialEq, Eq)]
pub enum Turn<I> {
    /// A correct process announces a value.
    Announce { process: u64, value: I },
    /// A correct process opens a case with a vote, 0 for keep and 1 for release.
    Open { process: u64, case: u64, vote: u64 },
    /// A faulty process posts a message.
    Forge { message: Message },
    /// A process is handed a message that waits for it.
    Deliver { process: u64, pick: u64 },
    /// A correct process goes on to the next round of a case.
    Advance { process: u64, case: u64 },
}

/// What a turn that was done answers.
#[derive(Clone, Copy, Debug, PartialEq, Eq)]
pub enum Answer {
    Announced(Announced),
    /// How many messages were posted, by opening a case or by forging.
    Posted(u64),
    Delivered(Delivered),
    Advanced(Advanced),
}

// What turns answer.

/// What announcing answers.
#[derive(Clone, Copy, Debug, PartialEq, Eq)]
pub struct Announced {
    /// The item's serial, from 0 to s - 1.
    pub serial: u64,
    /// How many messages were posted.
    pub posted: u64,
}

/// What delivering answers.
#[derive(Clone, Copy, Debug, PartialEq, Eq)]
pub struct Delivered {
    /// How many messages were posted.
    pub posted: u64,
    /// Whether the process accepted a body by this message.
    pub accepted: bool,
}

/// What advancing answers.
#[derive(Clone, Copy, Debug, PartialEq, Eq)]
pub struct Advanced {
    /// The round that was reached, up to 3p + 1.
    pub round: u64,
    /// How many messages were posted.
    pub posted: u64,
}

// What a process does when it has received a message.

/// What a process does with the body of a message that it has received.
#[derive(Clone, Copy, Debug, PartialEq, Eq)]
pub struct Reaction {
    /// It sends an echo of the body to all.
    pub echo: bool,
    /// It sends a ready of the body to all.
    pub ready: bool,
    /// It accepts the body.
    pub accepted: bool,
}

impl Reaction {
    /// It sends nothing and accepts nothing.
    pub const NOTHING: Reaction = Reaction {
        echo: false,
        ready: false,
        accepted: false,
    };
}

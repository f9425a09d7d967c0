// How a process goes on from a round.
use protocol::{Ballot, Side};

/// How a process goes on from a round of a case.
#[derive(Clone, Copy, Debug, PartialEq, Eq)]
pub struct Progress {
    /// Its ballot in the round after. Where there is none, it votes for the side of the coin.
    pub next: Option<Ballot>,
    /// The side that a third round forces, by t + 1 proposals of it.
    pub forced: Option<Side>,
    /// The side that a third round decides, by 2t + 1 proposals of it.
    pub decides: Option<Side>,
}

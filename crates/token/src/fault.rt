/// A place in a script.
#[derive(Clone, Copy, PartialEq, Eq, Debug)]
pub struct Position {
    /// The number of the line in its script, from 1.
    pub line: u64,
    /// The number of the byte on that line, from 1. One past the last byte is the line's end.
    pub byte: u64,
}

/// A token that is not lawful: a byte that begins none, or a number with a leading zero or of
/// 2^64 or more.
#[derive(Clone, Copy, PartialEq, Eq, Debug)]
pub struct TokenFault {
    /// Where its first byte stands.
    pub place: Position,
}

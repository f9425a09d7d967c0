// Where memory keeps what one process knows of one subject.
pub mod slots;

/// The places of one process for one subject, as indices into the slices of a memory.
#[derive(Clone, Copy, Debug, PartialEq, Eq)]
pub struct Place {
    /// Where its broadcast record is, in `broadcasts`.
    pub record: usize,
    /// Where the echo of sender 0 is, in `bodies`. Those of the other senders follow it.
    pub echoes: usize,
    /// Where the ready of sender 0 is, in `bodies`. Those of the other senders follow it.
    pub readies: usize,
}

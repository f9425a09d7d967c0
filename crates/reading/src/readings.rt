/// What reading answers.
#[derive(Clone, Copy, Debug, Drop, PartialEq, Eq)]
pub enum Reading<I> {
    /// The process has accepted no body.
    Nothing,
    /// It has accepted a body that no value of this item type has.
    Unreadable,
    /// It has accepted the body of this value.
    Value(I),
}

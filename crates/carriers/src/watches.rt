// A layer over any carrier that remembers which message was taken last.
ghost use Rattle.std.specs.Prelude.{◌≡◌, None};

use protocol::Message;

/// A layer that carries as `C` does, and remembers the message that was taken last.
#[derive(Drop)]
pub struct Watch<C> {
    pub(crate) below: C,
    pub(crate) last: Option<Message>,
}

impl<C> Watch<C> {
    /// Nothing was taken yet, whatever waits below.
    pub fn new(below: C) -> Watch<C>
        ensures below { result.below ≡ below }
        ensures none { result.last ≡ None }
    {
        Watch { below, last: None }
    }

    /// The message that was taken last through this layer, if any was.
    pub fn last(&self) -> Option<Message>
        ensures { result ≡ self.now.last }
    {
        self.last
    }
}

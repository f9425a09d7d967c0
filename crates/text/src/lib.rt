//! A text under construction. Each call takes the text and gives it back longer; where memory
//! runs out the text is let go, so that none is ever half written.
#![tactic(auto)]

ghost use Rattle.std.specs.Prelude.{◌≡◌, [], ◌++◌, ◌<◌, ◌≤◌, length, decimal, IfOk, OnErr};
ghost use Rattle.text.specs.Shown.{shown, text_room, Appends};

use std::alloc::{AllocError, Global};
use std::error::Error;
use std::{fmt, io};

/// The heap gave no memory for a text. Only this crate can make one, of what the heap answered.
#[derive(Clone, Copy, Debug, PartialEq, Eq)]
pub struct NoMemory(AllocError);

impl fmt::Display for NoMemory {
    ghost use Rattle.std.specs.Prelude.{Some, codes};

    ghost output = { λ _. Some (codes "The heap gave no memory for the text.") };

    fn fmt<W: fmt::Write>(&self, f: &mut fmt::Formatter<W>) -> fmt::Result {
        f.write_str("The heap gave no memory for the text.")
    }
}

impl Error for NoMemory {}

impl From<NoMemory> for io::Error {
    ghost use Rattle.std.specs.IoError.{error_kind};
    ghost use Rattle.std.specs.declared.io.ErrorKind.TheVariants.{OutOfMemory};

    ghost from_gives = { λ _ e. error_kind e ≡ OutOfMemory };

    fn from(why: NoMemory) -> io::Error {
        io::Error::from(why.0)
    }
}

/// A text under construction.
#[derive(Drop)]
pub struct Text {
    bytes: Vec<u8>,
}

impl Text {
    /// A text of no bytes. The heap is asked for none before something is put.
    pub fn new(heap: Global) -> Text
        ensures { shown result ≡ [] }
    {
        Text {
            bytes: Vec::new(heap),
        }
    }

    /// The bytes so far.
    pub fn as_bytes(&self) -> &[u8]
        ensures { result.now ≡ shown self.now }
    {
        self.bytes.as_slice()
    }

    /// Adds bytes. It fails only where the text has no room for them and the heap gives it none.
    pub fn put(mut self, more: &[u8]) -> Result<Text, NoMemory>
        ensures text { Appends result self more.now }
        ensures full { OnErr result (text_room self < length (shown self ++ more.now)) }
        ensures room { IfOk result (λ t. text_room self ≤ text_room t) }
    {
        self.bytes.extend_from_slice(more).map_err(NoMemory)?;
        Ok(self)
    }

    /// Adds a number in decimal, and fails as `put` does.
    pub fn put_number(self, n: u64) -> Result<Text, NoMemory>
        ensures text { Appends result self (decimal n) }
        ensures full { OnErr result (text_room self < length (shown self ++ decimal n)) }
        ensures room { IfOk result (λ t. text_room self ≤ text_room t) }
    {
        self.put(itoa::Buffer::new().format(n).as_bytes())
    }

    /// Adds words and a number behind them, and fails as `put` does.
    pub fn put_field(self, words: &[u8], n: u64) -> Result<Text, NoMemory>
        ensures text { Appends result self (words.now ++ decimal n) }
        ensures full { OnErr result (text_room self < length (shown self ++ (words.now ++ decimal n))) }
        ensures room { IfOk result (λ t. text_room self ≤ text_room t) }
    {
        self.put(words)?.put_number(n)
    }
}

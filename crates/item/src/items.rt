// What it takes to be announced and read.
ghost use Rattle.std.specs.Prelude.{◌≡◌, ℕ, Option};
ghost use Rattle.item.specs.Laws.{Faithful};

/// A type of values that can be announced and read. Different values have different bodies.
pub trait Item: Sized {
    // What a body is read as.
    ghost unpacked: { ℕ → Option Self };

    // The values that code can hold: a number in a clause has no bound of its own.
    ghost ok: { Self → Type 0 };

    // The body of a value.
    ghost packed: { Self → ℕ };

    /// The value that a body is read as, if there is one.
    fn unpack(body: u64) -> Option<Self>
        ensures { result ≡ unpacked body };

    /// The body of a value, from 0 to 2^64 - 1.
    fn pack(&self) -> u64
        ensures value { result ≡ packed self.now }
        ensures fits { ok self.now };

    ghost faithful: { Faithful ok packed unpacked };
}

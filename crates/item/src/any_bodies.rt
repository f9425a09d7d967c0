// Any body, as a value of its own: for lists of turns that announce items of several types.
ghost use Rattle.std.specs.Prelude.{◌≡◌, ℕ, ◌<◌, ◌^◌, Some};
ghost use Rattle.std.proofs.Common.{rules};

use crate::items::Item;

/// A body as a value: any number from 0 to 2^64 - 1, read as itself.
#[derive(Clone, Copy, Debug, PartialEq, Eq)]
pub struct AnyBody {
    /// What some item type's `pack` gives, or any other number.
    pub body: u64,
}

impl Item for AnyBody {
    ghost unpacked = { λ b. Some (record { body = b }) };

    ghost ok = { λ x. x.body < 2 ^ 64 };

    ghost packed = { λ x. x.body };

    ghost faithful = { Prim.search rules };

    fn unpack(body: u64) -> Option<AnyBody> {
        Some(AnyBody { body })
    }

    fn pack(&self) -> u64 {
        self.body
    }
}

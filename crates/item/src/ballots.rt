// A ballot's body is its number.
ghost use Rattle.std.specs.Prelude.{◌≡◌};
ghost use Rattle.protocol.specs.Numbers.{ballot_number, ballot_of};
ghost use Rattle.std.proofs.Common.{rules};

use crate::items::Item;
use protocol::Ballot;

impl Item for Ballot {
    ghost unpacked = { ballot_of };

    ghost ok = { λ _. Unit {0} };

    ghost packed = { ballot_number };

    ghost faithful = { Prim.search rules };

    fn unpack(body: u64) -> Option<Ballot> {
        Ballot::try_from(body).ok()
    }

    fn pack(&self) -> u64 {
        self.number()
    }
}

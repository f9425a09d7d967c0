// The side that a number shows.
ghost use Rattle.std.specs.Prelude.{◌≡◌};
ghost use Rattle.coin.specs.Sides.{side_of};

use protocol::Side;

// Odd means release.
pub(crate) fn side_of(number: u64) -> Side
    ensures { result ≡ side_of number }
{
    if number % 2 == 1 {
        Side::Release
    } else {
        Side::Keep
    }
}

// Coins that read their sides off lent bytes, one for each toss: odd means release.
ghost use Rattle.std.specs.Prelude.{◌≡◌, refl};
ghost use Rattle.coin.specs.Sides.{row_side, own_side, dealer_side};

use crate::coins::{Coin, SharedCoin};
use crate::sides::side_of;
use plan::Plan;
use protocol::Side;

/// A coin with bytes for each process: for each of its cases one for each phase. It shows release
/// if the byte is odd, and keep if it is even, if the bytes end before it, or at phase 0.
#[derive(Clone, Copy, Debug, PartialEq, Eq)]
pub struct OwnStrip<'a> {
    bytes: &'a [u8],
    cases: u8,
    phases: u8,
}

/// A coin with bytes for each case, one for each phase, read alike for every process. It shows
/// release if the byte is odd, and keep if it is even, if the bytes end before it, or at phase 0.
#[derive(Clone, Copy, Debug, PartialEq, Eq)]
pub struct DealerStrip<'a> {
    bytes: &'a [u8],
    phases: u8,
}

// The side for a phase in a row of the bytes, keep at phase 0 and past their end.
fn side_at(bytes: &[u8], row: u16, phases: u8, phase: u8) -> Side
    ensures { result ≡ row_side bytes.now row phases phase }
{
    let first = usize::from(row) * usize::from(phases);
    phase
        .checked_sub(1)
        .and_then(|past| bytes.get(first + usize::from(past)))
        .map_or(Side::Keep, |byte| side_of(u64::from(*byte)))
}

impl<'a> OwnStrip<'a> {
    /// A strip for the plan's numbers of cases and phases. Bytes may be missing or left over.
    pub fn new(plan: Plan, bytes: &'a [u8]) -> OwnStrip<'a>
        ensures lent { result.bytes.now ≡ bytes.now }
        ensures cases { result.cases ≡ plan.cases }
        ensures phases { result.phases ≡ plan.phases }
    {
        let cases = plan.cases() as u8;
        let phases = plan.phases() as u8;
        OwnStrip {
            bytes,
            cases,
            phases,
        }
    }
}

impl<'a> DealerStrip<'a> {
    /// A strip for the plan's number of phases. Bytes may be missing or left over.
    pub fn new(plan: Plan, bytes: &'a [u8]) -> DealerStrip<'a>
        ensures lent { result.bytes.now ≡ bytes.now }
        ensures phases { result.phases ≡ plan.phases }
    {
        let phases = plan.phases() as u8;
        DealerStrip { bytes, phases }
    }
}

impl Coin for OwnStrip<'_> {
    ghost shows = { λ s. own_side s.bytes.now s.cases s.phases };

    fn toss(&self, process: u8, case: u8, phase: u8) -> Side {
        let row = u16::from(process) * u16::from(self.cases) + u16::from(case);
        side_at(self.bytes, row, self.phases, phase)
    }
}

impl Coin for DealerStrip<'_> {
    ghost shows = { λ s _. dealer_side s.bytes.now s.phases };

    fn toss(&self, _process: u8, case: u8, phase: u8) -> Side {
        self.toss_for_all(case, phase)
    }
}

impl SharedCoin for DealerStrip<'_> {
    ghost side = { λ s. dealer_side s.bytes.now s.phases };

    ghost shared = { λ x process case phase. refl };

    fn toss_for_all(&self, case: u8, phase: u8) -> Side {
        side_at(self.bytes, u16::from(case), self.phases, phase)
    }
}

// A coin that reads its sides off the bits of a word.
ghost use Rattle.std.specs.Prelude.{◌≡◌, refl};
ghost use Rattle.coin.specs.Sides.{word_side};

use crate::coins::{Coin, SharedCoin};
use crate::sides::side_of;
use protocol::Side;

/// A shared coin of 64 bits, from the lowest and round again: 16 for each case, one for each
/// phase. It shows release if the bit is 1, and keep if it is 0 or at phase 0.
#[derive(Clone, Copy, Debug, PartialEq, Eq)]
pub struct WordCoin {
    word: u64,
}

impl WordCoin {
    /// The coin of this word.
    pub fn new(word: u64) -> WordCoin
        ensures { result.word ≡ word }
    {
        WordCoin { word }
    }
}

impl Coin for WordCoin {
    ghost shows = { λ s _. word_side s.word };

    fn toss(&self, _process: u8, case: u8, phase: u8) -> Side {
        self.toss_for_all(case, phase)
    }
}

impl SharedCoin for WordCoin {
    ghost side = { λ s. word_side s.word };

    ghost shared = { λ x process case phase. refl };

    fn toss_for_all(&self, case: u8, phase: u8) -> Side {
        phase.checked_sub(1).map_or(Side::Keep, |past| {
            let bit = (16 * u32::from(case) + u32::from(past)) % 64;
            side_of(self.word >> bit)
        })
    }
}

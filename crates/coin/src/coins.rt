// What it takes to be tossed.
ghost use Rattle.std.specs.Prelude.{◌≡◌, ℕ};
ghost use Rattle.protocol.specs.declared.votes.Side.{Side as CoinSide};
ghost use Rattle.coin.specs.Sides.{Shared};

use protocol::Side;

/// What is asked for a side where the ballots of a third round force none. A toss changes
/// nothing, so the same toss shows the same side again.
pub trait Coin {
    // The side for a process, a case and a phase.
    ghost shows: { Self → ℕ → ℕ → ℕ → CoinSide };

    /// The side for a process, a case and a phase, phases counted from 1.
    fn toss(&self, process: u8, case: u8, phase: u8) -> Side
        ensures { result ≡ shows self.now process case phase };
}

/// A coin that shows every process the same side.
pub trait SharedCoin: Coin {
    // The side for a case and a phase, whichever process asks.
    ghost side: { Self → ℕ → ℕ → CoinSide };

    /// What `toss` shows every process in a case and a phase.
    fn toss_for_all(&self, case: u8, phase: u8) -> Side
        ensures value { result ≡ side self.now case phase }
        ensures answer { (process : ℕ) → result ≡ Self.Coin.shows self.now process case phase };

    ghost shared: { (x : Self) → Shared (Self.Coin.shows x) (side x) };
}

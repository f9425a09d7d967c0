//! Coins that choose a side where the ballots force none.
#![tactic(auto)]

pub mod coins;
mod sides;
pub mod strips;
pub mod words;

pub use coins::{Coin, SharedCoin};
pub use strips::{DealerStrip, OwnStrip};
pub use words::WordCoin;

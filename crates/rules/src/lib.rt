//! The rules of turns, what a run of turns tells, and what holds of every run. No code runs here:
//! each function carries a theorem.
#![tactic(auto)]

pub mod answers;

ghost use Rattle.std.specs.Prelude.{ℕ, List};
ghost use Rattle.plan.specs.Kinds.{Line};
ghost use Rattle.memory.specs.Contents.{Held};
ghost use Rattle.rules.specs.Promises.{Happening, PromisesKept};
ghost use Rattle.rules.specs.Withstood.{Withstood};
ghost use Rattle.rules.specs.Turns.{Coin};
ghost use Rattle.rules.specs.Runs.{Event};

pub use answers::{Advanced, Announced, Delivered};

/// After every run, for every coin: agreement and validity; at rest everything is accepted alike
/// and every case that all opened has ended; a coin that shows what is forced decides.
pub fn runs_keep_promises()
    ensures { (line : Line) (capacity : ℕ) (coin : Coin) → PromisesKept line capacity coin }
{}

/// All that these promises speak of comes about in some run, with room for three messages.
pub fn runs_happen()
    ensures { (line : Line) × (coin : Coin) × (es : List Event) × (h : Held) × Happening line 3 coin es h }
{}

/// And all this beside a faulty process, among four, with room for 32 messages: it tells another
/// one what was not announced, and all correct processes accept what was.
pub fn runs_with_faults_happen()
    ensures { (line : Line) × (coin : Coin) × (es : List Event) × (h : Held) × Withstood 4 1 line 32 coin es h }
{}

// Which of the messages for a process a carrier takes.
ghost use Rattle.std.specs.Prelude.{◌≡◌, ℕ, ◌<◌, List};
ghost use Rattle.protocol.specs.declared.messages.Message.{Message};
ghost use Rattle.protocol.specs.Bags.{waiting_for};
ghost use Rattle.row.specs.Order.{listed, newest, picked};
ghost use Rattle.std.proofs.Common.{rules, mod-lt};

use row::Row;

/// Which of the messages for a process is taken.
pub trait Choice {
    // For a process and a pick, the number of the message that is taken out of a list. The oldest
    // for the process has number 0.
    ghost number: { ℕ → ℕ → List Message → ℕ };

    /// The number of the message that is taken, among those in the row for the process. The oldest
    /// has number 0. Where none waits for it, any number is answered.
    fn number(row: &Row, process: u64, pick: u64) -> u64
        ensures { result ≡ number process pick (listed row.now) };

    // Where messages wait for the process, it is the number of one of them.
    ghost among: { (process pick : ℕ) (ms : List Message) → 0 < waiting_for process ms → number process pick ms < waiting_for process ms };
}

/// The oldest message is taken.
#[derive(Drop)]
pub struct Oldest;

impl Choice for Oldest {
    ghost number = { λ _ _ _. 0 };

    ghost among = { λ _ _ _ lt. lt };

    fn number(_row: &Row, _process: u64, _pick: u64) -> u64 {
        0
    }
}

/// The newest message is taken.
#[derive(Drop)]
pub struct Newest;

impl Choice for Newest {
    ghost number = { λ process _ ms. newest process ms };

    ghost among = { Prim.search rules };

    fn number(row: &Row, process: u64, _pick: u64) -> u64 {
        row.count_for(process).saturating_sub(1)
    }
}

/// With k messages for the process, number pick modulo k is taken.
#[derive(Drop)]
pub struct Picked;

impl Choice for Picked {
    ghost number = { picked };

    ghost among = { λ _ pick _. mod-lt pick };

    // Where none waits, whatever number is as good.
    fn number(row: &Row, process: u64, pick: u64) -> u64 {
        pick.checked_rem(row.count_for(process)).unwrap_or(pick)
    }
}

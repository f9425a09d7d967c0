//! What brings messages from one process to another. Turns know a carrier by the messages that wait
//! in it and by its capacity alone.
#![tactic(auto)]

ghost use Rattle.std.specs.Prelude.{◌≡◌, ℕ, ◌≤◌, List, length, IfOk, OnOk, ◌==◌};
ghost use Rattle.protocol.specs.declared.messages.Message.{Message};
ghost use Rattle.carrier.specs.Waiting.{capped, free_in, Posted, Taken};
ghost use Rattle.protocol.specs.Bags.{waiting_for};

use protocol::{Message, PROCESSES, Refusal};

/// Messages on their way. A carrier is what it answers and does by its four calls; the ghost
/// members say what these rest on.
pub trait Carrier {
    // The messages that wait. Repeats count, the order does not.
    ghost waiting: { Self → List Message };

    // How many can wait at once. It never changes.
    ghost capacity: { Self → ℕ };

    // Never more wait than can.
    ghost fits: { (x : Self) → length (waiting x) ≤ capacity x };

    // What a carrier says besides, if anything: of itself before a message is posted, the message,
    // and itself after it.
    ghost posting: { Self → Message → Self → Type 0 } = { λ _ _ _. Unit {0} };

    // And of itself before a message is taken, the process, the pick, the message, and itself
    // after it.
    ghost taking: { Self → ℕ → ℕ → Message → Self → Type 0 } = { λ _ _ _ _ _. Unit {0} };

    /// How many more messages there is room for. A larger number is answered as 2^32 - 1.
    fn free(&self) -> u32
        ensures { result ≡ capped (free_in (capacity self.now) (waiting self.now)) };

    /// How many messages wait for one process, whatever its number. A larger number is answered as
    /// 2^32 - 1.
    fn waiting_for(&self, process: u64) -> u32
        ensures { result ≡ capped (waiting_for process (waiting self.now)) };

    /// Adds the message to those that wait. Refused exactly when nothing is free (13).
    fn post(&mut self, message: Message) -> Result<(), Refusal>
        ensures kept { capacity self.new ≡ capacity self.old }
        ensures posted { Posted result message (capacity self.old) (waiting self.old) (waiting self.new) }
        ensures told { OnOk result (posting self.old message self.new) };

    /// Removes one message for the process and hands it over. Where several wait, the carrier
    /// chooses, by `pick` if it looks at it. Refused exactly when none waits for the process (8).
    fn take(&mut self, process: u64, pick: u64) -> Result<Message, Refusal>
        ensures kept { capacity self.new ≡ capacity self.old }
        ensures taken { Taken result process (waiting self.old) (waiting self.new) }
        ensures told { IfOk result (λ m. taking self.old process pick m self.new) };
}

/// Whether no message waits, for whichever process.
pub fn is_idle<C: Carrier>(carrier: &C) -> bool
    ensures { result ≡ (length (C.waiting carrier.now) == 0) }
{
    (0..PROCESSES).all(|process| carrier.waiting_for(process) == 0)
}

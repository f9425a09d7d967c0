// A carrier that keeps messages in order of posting, and takes one of those for a process by a
// rule. A post or take that it refuses leaves it as it was, in every place that was lent to it.
ghost use Rattle.std.specs.Prelude.{◌≡◌, [], ◌∷◌, ◌++◌, length, IfOk, OnErr, OnOk};
ghost use Rattle.carrier.specs.Waiting.{Posted, Taken};
ghost use Rattle.row.specs.Order.{listed, room, listed_fits, TookAt};

use crate::choices::{Choice, Newest, Oldest, Picked};
use carrier::Carrier;
use protocol::{Message, Refusal};
use row::Row;
use std::marker::PhantomData;

/// A carrier that keeps messages in order of posting and takes one of those for a process as `K`
/// chooses.
#[derive(Drop)]
pub struct Ordered<'a, K> {
    row: Row<'a>,
    choice: PhantomData<K>,
}

/// A carrier that takes the oldest message for a process.
pub type Queue<'a> = Ordered<'a, Oldest>;

/// A carrier that takes the newest message for a process.
pub type Pile<'a> = Ordered<'a, Newest>;

/// A carrier that takes number pick modulo k of the k messages for a process, the oldest being 0.
pub type Basket<'a> = Ordered<'a, Picked>;

impl<'a, K: Choice> Ordered<'a, K> {
    /// Nothing waits yet, whatever the places hold. As many messages can wait as there are places.
    pub fn new(places: &'a mut [Message]) -> Ordered<'a, K>
        ensures none { listed result.row ≡ [] }
        ensures room { room result.row ≡ length places.old }
    {
        Ordered {
            row: Row::new(places),
            choice: PhantomData,
        }
    }
}

impl<'a, K: Choice> Carrier for Ordered<'a, K> {
    ghost waiting = { λ x. listed x.row };

    ghost capacity = { λ x. room x.row };

    ghost fits = { λ x. listed_fits x.row };

    ghost posting = { λ x m y. listed y.row ≡ listed x.row ++ (m ∷ []) };

    ghost taking = { λ x process pick m y. TookAt process (K.number process pick (listed x.row)) (listed x.row) m (listed y.row) };

    fn free(&self) -> u32 {
        self.row.free()
    }

    fn waiting_for(&self, process: u64) -> u32 {
        self.row.waiting_for(process)
    }

    fn post(&mut self, message: Message) -> Result<(), Refusal>
        ensures kept { room self.new.row ≡ room self.old.row }
        ensures posted { Posted result message (room self.old.row) (listed self.old.row) (listed self.new.row) }
        ensures told { OnOk result (listed self.new.row ≡ listed self.old.row ++ (message ∷ [])) }
        ensures untouched { OnErr result (self.new ≡ self.old) }
    {
        self.row.post(message)
    }

    fn take(&mut self, process: u64, pick: u64) -> Result<Message, Refusal>
        ensures kept { room self.new.row ≡ room self.old.row }
        ensures taken { Taken result process (listed self.old.row) (listed self.new.row) }
        ensures told { IfOk result (λ m. TookAt process (K.number process pick (listed self.old.row)) (listed self.old.row) m (listed self.new.row)) }
        ensures untouched { OnErr result (self.new ≡ self.old) }
    {
        let number = K::number(&self.row, process, pick);
        self.row.take(process, number)
    }
}

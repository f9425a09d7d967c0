// A layer carries as what lies below it does. What it remembers is the same after a refusal.
ghost use Rattle.std.specs.Prelude.{◌≡◌, Some, OnErr, OnOk, IfOk};
ghost use Rattle.carrier.specs.Waiting.{Posted, Taken};

use crate::watches::Watch;
use carrier::Carrier;
use protocol::{Message, Refusal};

impl<C: Carrier> Carrier for Watch<C> {
    ghost waiting = { λ x. C.waiting x.below };

    ghost capacity = { λ x. C.capacity x.below };

    ghost fits = { λ x. C.fits x.below };

    ghost posting = { λ x m y. (C.posting x.below m y.below) × (y.last ≡ x.last) };

    ghost taking = { λ x process pick m y. (C.taking x.below process pick m y.below) × (y.last ≡ Some m) };

    fn free(&self) -> u32 {
        self.below.free()
    }

    fn waiting_for(&self, process: u64) -> u32 {
        self.below.waiting_for(process)
    }

    fn post(&mut self, message: Message) -> Result<(), Refusal>
        ensures kept { C.capacity self.new.below ≡ C.capacity self.old.below }
        ensures posted { Posted result message (C.capacity self.old.below) (C.waiting self.old.below) (C.waiting self.new.below) }
        ensures told { OnOk result ((C.posting self.old.below message self.new.below) × (self.new.last ≡ self.old.last)) }
        ensures refused { OnErr result (self.new.last ≡ self.old.last) }
    {
        self.below.post(message)
    }

    fn take(&mut self, process: u64, pick: u64) -> Result<Message, Refusal>
        ensures kept { C.capacity self.new.below ≡ C.capacity self.old.below }
        ensures taken { Taken result process (C.waiting self.old.below) (C.waiting self.new.below) }
        ensures told { IfOk result (λ m. (C.taking self.old.below process pick m self.new.below) × (self.new.last ≡ Some m)) }
        ensures refused { OnErr result (self.new.last ≡ self.old.last) }
    {
        let message = self.below.take(process, pick)?;
        self.last = Some(message);
        Ok(message)
    }
}

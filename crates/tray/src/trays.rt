// A tray over a carrier.
ghost use Rattle.std.specs.Prelude.{◌≡◌, ◌+◌, [], ◌++◌, OnErr};
ghost use Rattle.carrier.specs.Waiting.{Posted, Taken};
ghost use Rattle.tray.specs.Tables.{kept};
ghost use Rattle.tray.specs.Layers.{both_fit};

use crate::tables::Table;
use carrier::Carrier;
use protocol::{Message, Refusal};

/// A layer of 8 places over the carrier `below`. It keeps a message itself while one of its places
/// is free, and posts it below when none is. It takes from its own places first, and from below
/// where none of its own messages is for the process.
#[derive(Debug, Drop)]
pub struct Tray<C> {
    table: Table,
    below: C,
}

impl<C: Carrier> Tray<C> {
    /// The places of the tray are free, whatever waits below.
    pub fn new(below: C) -> Tray<C>
        ensures none { kept result.table.places ≡ [] }
        ensures below { result.below ≡ below }
    {
        Tray {
            table: Table::new(),
            below,
        }
    }
}

// A tray says nothing of the order in which it takes messages. Where it refuses, its own places are
// as they were.
impl<C: Carrier> Carrier for Tray<C> {
    ghost waiting = { λ x. kept x.table.places ++ C.waiting x.below };

    ghost capacity = { λ x. 8 + C.capacity x.below };

    ghost fits = { λ x. both_fit x.table.places (C.waiting x.below) (C.capacity x.below) (C.fits x.below) };

    fn free(&self) -> u32 {
        self.below.free().saturating_add(self.table.free())
    }

    fn waiting_for(&self, process: u64) -> u32 {
        self.below
            .waiting_for(process)
            .saturating_add(self.table.waiting_for(process))
    }

    fn post(&mut self, message: Message) -> Result<(), Refusal>
        ensures kept { 8 + C.capacity self.new.below ≡ 8 + C.capacity self.old.below }
        ensures posted { Posted result message (8 + C.capacity self.old.below) (kept self.old.table.places ++ C.waiting self.old.below) (kept self.new.table.places ++ C.waiting self.new.below) }
        ensures refused { OnErr result (self.new.table ≡ self.old.table) }
    {
        match self.table.post(message) {
            Ok(()) => Ok(()),
            Err(_) => self.below.post(message),
        }
    }

    fn take(&mut self, process: u64, pick: u64) -> Result<Message, Refusal>
        ensures kept { 8 + C.capacity self.new.below ≡ 8 + C.capacity self.old.below }
        ensures taken { Taken result process (kept self.old.table.places ++ C.waiting self.old.below) (kept self.new.table.places ++ C.waiting self.new.below) }
        ensures refused { OnErr result (self.new.table ≡ self.old.table) }
    {
        match self.table.take(process) {
            Ok(message) => Ok(message),
            Err(_) => self.below.take(process, pick),
        }
    }
}

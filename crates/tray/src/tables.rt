// The messages that a tray keeps itself: putting them into the places of a table and taking them
// out.
ghost use Rattle.std.specs.Prelude.{◌≡◌, ◌-◌, [], length, OnErr};
ghost use Rattle.std.specs.List.{position};
ghost use Rattle.carrier.specs.Waiting.{Posted, Taken};
ghost use Rattle.protocol.specs.Bags.{waiting_for};
ghost use Rattle.tray.specs.Tables.{kept, is_for, is_free};

use protocol::{Message, Refusal};

/// Each place has a message or is free, in no order.
#[derive(Debug, Drop)]
pub struct Table {
    places: [Option<Message>; 8],
}

// Whether a place has a message for the process.
fn is_for(place: Option<Message>, process: u64) -> bool
    ensures { result ≡ is_for process place }
{
    place.is_some_and(|message| message.addressee() == process)
}

impl Table {
    /// All places are free.
    #[tactic(auto, unfolding(crate::specs::Tables::messages))]
    pub fn new() -> Table
        ensures { kept result.places ≡ [] }
    {
        Table { places: [None; 8] }
    }

    /// How many places are free.
    pub fn free(&self) -> u32
        ensures { result ≡ 8 - length (kept self.now.places) }
    {
        self.places.iter().filter(|place| place.is_none()).count() as u32
    }

    /// How many messages wait for a process.
    pub fn waiting_for(&self, process: u64) -> u32
        ensures { result ≡ waiting_for process (kept self.now.places) }
    {
        let places = self.places.iter();
        places.filter(|place| is_for(**place, process)).count() as u32
    }

    // The first place that is free.
    fn first_free(&self) -> Option<usize>
        ensures { result ≡ position is_free self.now.places }
    {
        self.places.iter().position(|place| place.is_none())
    }

    // The first place with a message for the process.
    fn first_for(&self, process: u64) -> Option<usize>
        ensures { result ≡ position (is_for process) self.now.places }
    {
        self.places.iter().position(|place| is_for(*place, process))
    }

    /// Keeps the message in the first free place. Refused where none is free (13), and then the
    /// table is as it was.
    pub fn post(&mut self, message: Message) -> Result<(), Refusal>
        ensures posted { Posted result message 8 (kept self.old.places) (kept self.new.places) }
        ensures untouched { OnErr result (self.new ≡ self.old) }
    {
        let at = self.first_free().ok_or(Refusal::NoRoom)?;
        self.places[at] = Some(message);
        Ok(())
    }

    /// Takes the message for the process that stands first. Refused where there is none (8), and
    /// then the table is as it was.
    pub fn take(&mut self, process: u64) -> Result<Message, Refusal>
        ensures taken { Taken result process (kept self.old.places) (kept self.new.places) }
        ensures untouched { OnErr result (self.new ≡ self.old) }
    {
        let at = self.first_for(process).ok_or(Refusal::NothingWaiting)?;
        Ok(self.places[at].take().unwrap())
    }
}

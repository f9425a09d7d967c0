// Messages over lent memory, in order of posting.
ghost use Rattle.std.specs.Prelude.{◌≡◌, ◌-◌, ◌<◌, ◌≤◌, Some, [], length, OnErr};
ghost use Rattle.std.specs.List.{remove, slice_get};
ghost use Rattle.carrier.specs.Waiting.{capped, Posted};
ghost use Rattle.protocol.specs.Bags.{waiting_for};

use protocol::{Message, Refusal};

/// Messages that wait, in order of posting, each in a lent place.
#[derive(Debug, Drop)]
pub struct Row<'a> {
    places: &'a mut [Message],
    // How many places are taken: the first ones. What the others hold counts for nothing.
    held: usize,
    ghost within: { held ≤ length places.now },
}

impl<'a> Row<'a> {
    ghost use Rattle.row.specs.Order.{listed, room, standing, answer_at, left_at, pushed};

    /// Nothing waits yet, whatever the places hold. As many messages can wait as there are places.
    pub fn new(places: &'a mut [Message]) -> Row<'a>
        ensures none { listed result ≡ [] }
        ensures room { room result ≡ length places.old }
    {
        Row { places, held: 0 }
    }

    // The messages that wait, in order of posting.
    fn waiting(&self) -> &[Message]
        ensures { result.now ≡ listed self.now }
    {
        &self.places[..self.held]
    }

    /// How many places are free. A larger number is answered as 2^32 - 1.
    pub fn free(&self) -> u32
        ensures { result ≡ capped (room self.now - length (listed self.now)) }
    {
        let free = self.places.len() - self.held;
        u32::try_from(free).unwrap_or(u32::MAX)
    }

    /// How many messages wait for a process.
    pub fn count_for(&self, process: u64) -> u64
        ensures { result ≡ waiting_for process (listed self.now) }
    {
        let waiting = self.waiting();
        let mut count = 0;
        for message in waiting {
            if message.addressee() == process {
                count += 1;
            }
        }
        count
    }

    /// How many messages wait for a process. A number above 2^32 - 1 is answered as 2^32 - 1.
    pub fn waiting_for(&self, process: u64) -> u32
        ensures { result ≡ capped (waiting_for process (listed self.now)) }
    {
        u32::try_from(self.count_for(process)).unwrap_or(u32::MAX)
    }

    /// Adds a message behind the others. Refused where no place is free (13), and then the row is
    /// as it was, in every place.
    pub fn post(&mut self, message: Message) -> Result<(), Refusal>
        ensures room { room self.new ≡ room self.old }
        ensures posted { Posted result message (room self.old) (listed self.old) (listed self.new) }
        ensures order { listed self.new ≡ pushed result (listed self.old) message }
        ensures untouched { OnErr result (self.new ≡ self.old) }
    {
        if self.held == self.places.len() {
            return Err(Refusal::NoRoom);
        }
        self.places[self.held] = message;
        self.held += 1;
        Ok(())
    }

    // Where that number, from 0, of the messages for a process stands, the oldest first.
    fn find(&self, process: u64, number: u64) -> Option<usize>
        ensures { result ≡ standing process number (listed self.now) }
    {
        let waiting = self.waiting();
        let mut before = number;
        for (at, message) in waiting.iter().enumerate() {
            if message.addressee() == process {
                if before == 0 {
                    return Some(at);
                }
                before -= 1;
            }
        }
        None
    }

    // Takes one message out. The later ones move a place down.
    fn remove(&mut self, at: usize) -> Message
        requires { at < length (listed self.old) }
        ensures room { room self.new ≡ room self.old }
        ensures answer { Some result ≡ slice_get (listed self.old) at }
        ensures left { listed self.new ≡ remove (listed self.old) at }
    {
        let message = self.places[at];
        self.places.copy_within(at + 1..self.held, at);
        self.held -= 1;
        message
    }

    /// Takes that number, from 0, of the messages for a process, the oldest first. The others keep
    /// their order. Refused where there are not so many (8), and then the row is as it was, in
    /// every place.
    pub fn take(&mut self, process: u64, number: u64) -> Result<Message, Refusal>
        ensures room { room self.new ≡ room self.old }
        ensures answer { result ≡ answer_at process number (listed self.old) }
        ensures left { listed self.new ≡ left_at process number (listed self.old) }
        ensures untouched { OnErr result (self.new ≡ self.old) }
    {
        let at = self.find(process, number).ok_or(Refusal::NothingWaiting)?;
        Ok(self.remove(at))
    }
}

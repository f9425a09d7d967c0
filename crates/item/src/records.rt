// A record: making one, reading its fields, and packing it into a body.
ghost use Rattle.std.specs.Prelude.{◌≡◌, ◌≤◌};

use crate::items::Item;
use protocol::Refusal;

const LAST_KIND: u64 = 40;

const LAST_COLOUR: u64 = 11;

// Of the stations, of the days and of the shelves.
const LAST: u64 = 0xffff;

/// An item with five fields, packed into one body. Every record is within the ranges of
/// `Record::new`.
#[derive(Clone, Copy, Debug, PartialEq, Eq)]
pub struct Record {
    kind: u8,
    colour: u8,
    station: u16,
    day: u16,
    shelf: u16,
    ghost first: { 1 ≤ kind },
    ghost last: { kind ≤ 40 },
    ghost coloured: { colour ≤ 11 },
    ghost placed: { station ≤ 65535 },
    ghost dated: { day ≤ 65535 },
    ghost shelved: { shelf ≤ 65535 },
}

impl Record {
    ghost use Rattle.item.specs.Records.{recorded};

    /// A record of a kind, 1 to 40, a colour, 0 to 11, and a station, a day and a shelf, 0 to
    /// 65,535 each. Refused (9) where a field is out of its range.
    pub fn new(
        kind: u64,
        colour: u64,
        station: u64,
        day: u64,
        shelf: u64,
    ) -> Result<Record, Refusal>
        ensures { result ≡ recorded kind colour station day shelf }
    {
        if !(1..=LAST_KIND).contains(&kind) || colour > LAST_COLOUR {
            return Err(Refusal::ValueOutOfRange);
        }
        if station > LAST || day > LAST || shelf > LAST {
            return Err(Refusal::ValueOutOfRange);
        }
        Ok(Record {
            kind: kind as u8,
            colour: colour as u8,
            station: station as u16,
            day: day as u16,
            shelf: shelf as u16,
        })
    }

    /// The kind, 1 to 40.
    pub fn kind(&self) -> u64
        ensures { result ≡ self.now.kind }
    {
        u64::from(self.kind)
    }

    /// The colour, 0 to 11.
    pub fn colour(&self) -> u64
        ensures { result ≡ self.now.colour }
    {
        u64::from(self.colour)
    }

    /// The station, 0 to 65,535.
    pub fn station(&self) -> u64
        ensures { result ≡ self.now.station }
    {
        u64::from(self.station)
    }

    /// The day, counted from 1 January 2000, which is 0, up to 65,535.
    pub fn day(&self) -> u64
        ensures { result ≡ self.now.day }
    {
        u64::from(self.day)
    }

    /// The shelf, 0 to 65,535.
    pub fn shelf(&self) -> u64
        ensures { result ≡ self.now.shelf }
    {
        u64::from(self.shelf)
    }
}

impl Item for Record {
    ghost use Rattle.item.specs.Records.{body_of, record_in};
    ghost use Rattle.item.specs.Bodies.{record_faithful};

    ghost unpacked = { record_in };

    ghost ok = { λ _. Unit {0} };

    ghost packed = { body_of };

    ghost faithful = { record_faithful };

    fn unpack(body: u64) -> Option<Record> {
        let kind = body >> 56;
        let colour = body >> 48 & 0xff;
        let station = body >> 32 & 0xffff;
        let day = body >> 16 & 0xffff;
        let shelf = body & 0xffff;
        Record::new(kind, colour, station, day, shelf).ok()
    }

    fn pack(&self) -> u64 {
        self.kind() << 56
            | self.colour() << 48
            | self.station() << 32
            | self.day() << 16
            | self.shelf()
    }
}

// What things are called at the counters.
use anyhow::Context;
use item::{Item, Record};
use memory::Decision;
use protocol::{Ballot, Message, Side, Step, Subject};
use reading::Reading;
use std::fmt;

// A value of another crate, as the counters call it.
#[derive(Clone, Copy)]
pub(crate) struct InWords<T>(pub(crate) T);

impl fmt::Display for InWords<Subject> {
    fn fmt<W: fmt::Write>(&self, f: &mut fmt::Formatter<W>) -> fmt::Result {
        match self.0 {
            Subject::Item { originator, serial } => write!(f, "item {originator} {serial}"),
            Subject::Ballot {
                originator,
                case,
                round,
            } => write!(f, "ballot {originator} {case} {round}"),
        }
    }
}

// Field by field.
impl fmt::Display for InWords<Record> {
    fn fmt<W: fmt::Write>(&self, f: &mut fmt::Formatter<W>) -> fmt::Result {
        let kind = self.0.kind();
        let colour = self.0.colour();
        let station = self.0.station();
        let day = self.0.day();
        let shelf = self.0.shelf();
        write!(
            f,
            "kind {kind}, colour {colour}, station {station}, day {day}, shelf {shelf}"
        )
    }
}

impl fmt::Display for InWords<Reading<Record>> {
    fn fmt<W: fmt::Write>(&self, f: &mut fmt::Formatter<W>) -> fmt::Result {
        match &self.0 {
            Reading::Nothing => f.write_str("nothing"),
            Reading::Unreadable => f.write_str("unreadable"),
            Reading::Value(record) => InWords(*record).fmt(f),
        }
    }
}

impl fmt::Display for InWords<Option<Decision>> {
    fn fmt<W: fmt::Write>(&self, f: &mut fmt::Formatter<W>) -> fmt::Result {
        match self.0 {
            None => f.write_str("nothing"),
            Some(Decision { side, phase }) => {
                let name = InWords(side);
                write!(f, "{name} in phase {phase}")
            }
        }
    }
}

impl fmt::Display for InWords<Side> {
    fn fmt<W: fmt::Write>(&self, f: &mut fmt::Formatter<W>) -> fmt::Result {
        f.write_str(match self.0 {
            Side::Keep => "keep",
            Side::Release => "release",
        })
    }
}

impl fmt::Display for InWords<Ballot> {
    fn fmt<W: fmt::Write>(&self, f: &mut fmt::Formatter<W>) -> fmt::Result {
        f.write_str(match self.0 {
            Ballot::Keep => "keep",
            Ballot::Release => "release",
            Ballot::ProposeKeep => "propose keep",
            Ballot::ProposeRelease => "propose release",
            Ballot::Open => "open",
        })
    }
}

impl fmt::Display for InWords<Step> {
    fn fmt<W: fmt::Write>(&self, f: &mut fmt::Formatter<W>) -> fmt::Result {
        f.write_str(match self.0 {
            Step::Initial => "an initial",
            Step::Echo => "an echo",
            Step::Ready => "a ready",
        })
    }
}

// What a message says: of an item's record its shelf, since the records of this story differ in
// nothing else, or a ballot.
#[derive(Clone, Copy)]
pub(crate) enum Content {
    Shelf(u64),
    Ballot(Ballot),
}

impl Content {
    pub(crate) fn of(message: &Message) -> anyhow::Result<Content> {
        match message.subject() {
            Subject::Item { .. } => {
                let record = Record::unpack(message.body()).context("no record has this body")?;
                Ok(Content::Shelf(record.shelf()))
            }
            Subject::Ballot { .. } => {
                let ballot = Ballot::unpack(message.body()).context("no ballot has this body")?;
                Ok(Content::Ballot(ballot))
            }
        }
    }
}

impl fmt::Display for InWords<Content> {
    fn fmt<W: fmt::Write>(&self, f: &mut fmt::Formatter<W>) -> fmt::Result {
        match self.0 {
            Content::Shelf(shelf) => write!(f, "shelf {shelf}"),
            Content::Ballot(ballot) => InWords(ballot).fmt(f),
        }
    }
}

// What the tests share.
use carrier::Carrier;
use item::Item;
use line::{announce, deliver, forge, open_line};
use memory::{BroadcastRecord, CaseRecord, Memory, Slip, Stage};
use plan::{Draft, Line, Plan};
use protocol::{Message, Refusal, Step, Subject};
use reading::{Reading, read};
use rules::{Announced, Delivered};
use std::fmt::Debug;
use std::ops::Range;
use std::process::Abort;

mod broadcasts;
mod contents;
mod refusals;

// Places that no opening has cleared.
const ODD: BroadcastRecord = BroadcastRecord {
    stage: Stage::Accepted(9),
};

const ODD_CASE: CaseRecord = CaseRecord {
    round: 200,
    decision: None,
    slip: Slip::Out,
};

// What most tests are about.
const ITEM: Subject = Subject::Item {
    originator: 0,
    serial: 0,
};

const NOTHING: Delivered = Delivered {
    posted: 0,
    accepted: false,
};

fn item(originator: u64, serial: u64) -> Subject {
    Subject::Item { originator, serial }
}

fn ballot(originator: u64, case: u64, round: u64) -> Subject {
    Subject::Ballot {
        originator,
        case,
        round,
    }
}

fn draft_with_faulty(plan: Plan, faulty: Range<u64>) -> Result<Draft, Refusal> {
    let mut draft = Draft::new(plan);
    for process in faulty {
        draft.mark_faulty(process)?;
    }
    Ok(draft)
}

fn opened<C: Carrier>(draft: Draft, memory: &mut Memory, carrier: &C) -> Result<Line, Refusal> {
    open_line(draft, memory, carrier).map_err(|(refusal, _draft)| refusal)
}

// What the turns are handed: a line, and the memory and the carrier that are lent for it.
#[derive(Drop)]
struct Hall<'h, 'm, 'c, C> {
    line: Line,
    memory: &'h mut Memory<'m>,
    carrier: &'c mut C,
}

impl<'h, 'm, 'c, C: Carrier> Hall<'h, 'm, 'c, C> {
    fn new(line: Line, memory: &'h mut Memory<'m>, carrier: &'c mut C) -> Hall<'h, 'm, 'c, C> {
        Hall {
            line,
            memory,
            carrier,
        }
    }

    fn announce<I: Item>(&mut self, process: u64, value: &I) -> Result<Announced, Refusal> {
        announce(&self.line, self.memory, self.carrier, process, value)
    }

    fn post(&mut self, message: Message) -> Result<(), Refusal> {
        self.carrier.post(message)
    }

    fn forge(&mut self, message: Message) -> Result<u64, Refusal> {
        forge(&self.line, self.memory, self.carrier, message)
    }

    fn deliver(&mut self, process: u64, pick: u64) -> Result<Delivered, Refusal> {
        deliver(&self.line, self.memory, self.carrier, process, pick)
    }

    // What the process has accepted, with the body that a value packs to in place of the value.
    fn read<I: Item + Drop>(
        &self,
        process: u64,
        subject: Subject,
    ) -> Result<Reading<u64>, Refusal> {
        Ok(
            match read::<I>(&self.line, self.memory, process, subject)? {
                Reading::Nothing => Reading::Nothing,
                Reading::Unreadable => Reading::Unreadable,
                Reading::Value(value) => Reading::Value(value.pack()),
            },
        )
    }

    fn heard(&self) -> usize {
        heard(self.memory)
    }

    fn free(&self) -> u32 {
        self.carrier.free()
    }

    fn waiting_for(&self, process: u64) -> u32 {
        self.carrier.waiting_for(process)
    }
}

// Fails, and shows both values, where they differ.
fn assert_same<T: PartialEq + Debug + Drop>(rt: &impl Abort, found: T, expected: T) {
    assert_eq!(rt; found, expected);
}

// How many body places hold something.
fn heard(memory: &Memory) -> usize {
    memory.bodies.iter().flatten().count()
}

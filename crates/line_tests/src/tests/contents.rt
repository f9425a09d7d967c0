// Single deliveries, odd contents of memory, and reading.
use crate::tests::*;
use carrier::Carrier;
use carriers::{Pile, Queue};
use item::{Record, Tag};
use memory::{BroadcastRecord, Memory, Stage};
use plan::{Draft, Plan};
use protocol::{Ballot, Message, Refusal, Step};
use reading::Reading;
use rules::{Announced, Delivered};
use std::test::Fail;

impl<'h, 'm, 'c, 'p> Hall<'h, 'm, 'c, Pile<'p>> {
    // Posts a message and delivers it at once, since a pile takes the newest.
    fn give(&mut self, message: Message) -> Result<Delivered, Refusal> {
        self.post(message)?;
        self.deliver(message.addressee(), 0)
    }
}

// Of a plan with 4 processes, of which 1 may be faulty, 1 serial, and 1 case of 1 phase.
#[test]
fn what_lies_outside_the_plan_is_dropped(rt: HostRuntime) -> Result<(), Fail> {
    let mut places = [Message::BLANK; 9];
    let memory = &mut Memory {
        broadcasts: &mut [BroadcastRecord::SILENT; 64],
        bodies: &mut [None; 512],
        cases: &mut [ODD_CASE; 4],
        serials: &mut [0; 4],
    };
    let line = Line::from(Draft::new(Plan::new(4, 1, 1, 1, 1)?));
    let carrier = &mut Pile::new(&mut places);
    let mut hall = Hall::new(line, memory, carrier);
    let rows = [
        (4, ITEM),
        (15, ITEM),
        (0, item(4, 0)),
        (0, item(u64::MAX, 0)),
        (0, item(0, 1)),
        (0, item(0, u64::MAX)),
        (0, ballot(4, 0, 1)),
        (0, ballot(0, 1, 1)),
        (0, ballot(0, 0, 0)),
        (0, ballot(0, 0, 4)),
        (0, ballot(0, 0, u64::MAX)),
    ];
    for (sender, subject) in rows {
        for step in [Step::Initial, Step::Echo, Step::Ready] {
            let message = Message::new(sender, 2, step, subject, 7)?;
            assert_same(&rt, hall.give(message), Ok(NOTHING));
        }
    }
    assert_same(&rt, hall.heard(), 0);
    assert_same(&rt, hall.free(), 9);
    let message = Message::new(3, 2, Step::Initial, ballot(3, 0, 3), 7)?;
    let echoed = Delivered {
        posted: 4,
        accepted: false,
    };
    assert_same(&rt, hall.give(message), Ok(echoed));
    Ok(())
}

// The messages that process 2 gets about an item of process 0: sender, step and body. Then how many
// it posts, whether it accepts, and how many bodies it has heard. Here E = 3, R = 2 and A = 3.
const LIFE: [(u64, Step, u64, u64, bool, usize); 20] = [
    (1, Step::Initial, 7, 0, false, 0),
    (0, Step::Initial, 7, 4, false, 0),
    (0, Step::Initial, 7, 0, false, 0),
    (0, Step::Initial, 8, 0, false, 0),
    (0, Step::Echo, 7, 0, false, 1),
    (0, Step::Echo, 7, 0, false, 1),
    (0, Step::Echo, 8, 0, false, 1),
    (3, Step::Echo, 8, 0, false, 2),
    (1, Step::Echo, 7, 0, false, 3),
    (2, Step::Echo, 7, 4, false, 4),
    (2, Step::Echo, 7, 0, false, 4),
    (0, Step::Ready, 7, 0, false, 5),
    (0, Step::Ready, 7, 0, false, 5),
    (3, Step::Ready, 8, 0, false, 6),
    (1, Step::Ready, 7, 0, false, 7),
    (3, Step::Ready, 7, 0, false, 7),
    (2, Step::Ready, 7, 0, true, 8),
    (2, Step::Ready, 7, 0, false, 8),
    (1, Step::Echo, 8, 0, false, 8),
    (0, Step::Initial, 7, 0, false, 8),
];

#[test]
fn repeats_and_latecomers_change_nothing(rt: HostRuntime) -> Result<(), Fail> {
    let mut places = [Message::BLANK; 17];
    let line = Line::from(Draft::new(Plan::new(4, 1, 1, 0, 1)?));
    let memory = &mut Memory {
        broadcasts: &mut [BroadcastRecord::SILENT; 16],
        bodies: &mut [None; 128],
        cases: &mut [],
        serials: &mut [0; 4],
    };
    let carrier = &mut Pile::new(&mut places);
    let mut hall = Hall::new(line, memory, carrier);
    for (sender, step, body, posted, accepted, bodies) in LIFE {
        let message = Message::new(sender, 2, step, ITEM, body)?;
        assert_same(&rt, hall.give(message), Ok(Delivered { posted, accepted }));
        assert_same(&rt, hall.heard(), bodies);
    }
    assert_same(&rt, hall.free(), 9);
    assert_same(&rt, hall.read::<Tag>(2, ITEM), Ok(Reading::Value(7)));
    Ok(())
}

// Every body place holds 7, and three serials are past the plan's only one. A stage, a message from
// process 0 to process 1, how many that posts, whether it accepts, and what is read then.
const ODDITIES: [(Stage, Step, u64, u64, bool, Reading<u64>); 13] = [
    (Stage::Silent, Step::Initial, 8, 4, false, Reading::Nothing),
    (Stage::Silent, Step::Echo, 7, 8, false, Reading::Nothing),
    (Stage::Silent, Step::Echo, 8, 0, false, Reading::Nothing),
    (Stage::Silent, Step::Ready, 7, 8, true, Reading::Value(7)),
    (Stage::Silent, Step::Ready, 8, 0, false, Reading::Nothing),
    (Stage::Echoed, Step::Initial, 8, 0, false, Reading::Nothing),
    (Stage::Echoed, Step::Echo, 7, 4, false, Reading::Nothing),
    (Stage::Echoed, Step::Ready, 7, 4, true, Reading::Value(7)),
    (Stage::Readied, Step::Echo, 7, 0, false, Reading::Nothing),
    (Stage::Readied, Step::Ready, 7, 0, true, Reading::Value(7)),
    (Stage::Readied, Step::Ready, 8, 0, false, Reading::Nothing),
    (
        Stage::Accepted(0),
        Step::Ready,
        7,
        0,
        false,
        Reading::Unreadable,
    ),
    (
        Stage::Accepted(5),
        Step::Ready,
        7,
        0,
        false,
        Reading::Value(5),
    ),
];

#[test]
fn a_call_goes_by_what_it_finds(rt: HostRuntime) -> Result<(), Fail> {
    for (stage, step, body, posted, accepted, reading) in ODDITIES {
        let mut places = [Message::BLANK; 9];
        let line = Line::from(Draft::new(Plan::new(4, 1, 1, 0, 1)?));
        let memory = &mut Memory {
            broadcasts: &mut [BroadcastRecord { stage }; 16],
            bodies: &mut [Some(7); 128],
            cases: &mut [],
            serials: &mut [1, 2, 255, 0],
        };
        let carrier = &mut Pile::new(&mut places);
        let mut hall = Hall::new(line, memory, carrier);
        let value = Tag::new(5)?;
        let message = Message::new(0, 1, step, ITEM, body)?;
        assert_same(&rt, hall.give(message), Ok(Delivered { posted, accepted }));
        assert_same(&rt, hall.read::<Tag>(1, ITEM), Ok(reading));
        for process in 0..3 {
            assert_same(
                &rt,
                hall.announce(process, &value),
                Err(Refusal::SerialsUsedUp),
            );
        }
    }
    Ok(())
}

// One place more than is needed in each part, and odd contents everywhere.
#[test]
fn opening_clears_what_is_needed_and_no_more(rt: HostRuntime) -> Result<(), Fail> {
    let memory = &mut Memory {
        broadcasts: &mut [ODD; 5],
        bodies: &mut [Some(9); 9],
        cases: &mut [ODD_CASE; 2],
        serials: &mut [255; 2],
    };
    let mut places = [Message::BLANK; 3];
    let carrier = &mut Queue::new(&mut places);
    let line = opened(Draft::new(Plan::new(1, 0, 1, 1, 1)?), memory, carrier)?;
    assert_same(&rt, memory.case_record(0).round, 0);
    let mut hall = Hall::new(line, memory, carrier);
    assert_same(&rt, hall.heard(), 1);
    assert_same(
        &rt,
        hall.read::<Tag>(0, ballot(0, 0, 3)),
        Ok(Reading::Nothing),
    );
    let announced = Announced {
        serial: 0,
        posted: 1,
    };
    assert_same(&rt, hall.announce(0, &Tag::new(5)?), Ok(announced));
    for (posted, accepted) in [(1, false), (1, false), (0, true)] {
        assert_same(&rt, hall.deliver(0, 0), Ok(Delivered { posted, accepted }));
    }
    assert_same(&rt, hall.read::<Tag>(0, ITEM), Ok(Reading::Value(5)));
    assert_same(&rt, hall.heard(), 3);
    assert_same(&rt, memory.case_record(1).round, 200);
    assert_same(&rt, memory.next_serial(1), 255);
    Ok(())
}

// One record of 80 has the body 3: what process 2 keeps of the second item of process 3.
#[test]
fn reading_finds_the_record(rt: HostRuntime) -> Result<(), Fail> {
    let mut records = [BroadcastRecord::SILENT; 80];
    records[56] = BroadcastRecord {
        stage: Stage::Accepted(3),
    };
    let line = Line::from(draft_with_faulty(Plan::new(4, 1, 2, 1, 1)?, 3..4)?);
    let memory = &mut Memory {
        broadcasts: &mut records,
        bodies: &mut [None; 640],
        cases: &mut [ODD_CASE; 4],
        serials: &mut [0; 4],
    };
    let carrier = &mut Queue::new(&mut []);
    let hall = Hall::new(line, memory, carrier);
    let rows = [
        (2, item(3, 1), Ok(Reading::Value(3))),
        (2, item(3, 0), Ok(Reading::Nothing)),
        (2, ballot(3, 0, 1), Ok(Reading::Nothing)),
        (2, item(2, 1), Ok(Reading::Nothing)),
        (1, item(3, 1), Ok(Reading::Nothing)),
        (4, item(0, 0), Err(Refusal::ProcessOutOfRange)),
        (u64::MAX, item(4, 0), Err(Refusal::ProcessOutOfRange)),
        (3, item(3, 1), Err(Refusal::WrongRole)),
        (3, item(4, 0), Err(Refusal::WrongRole)),
        (2, item(4, 0), Err(Refusal::SubjectOutOfPlan)),
        (2, item(3, 2), Err(Refusal::SubjectOutOfPlan)),
        (2, ballot(3, 1, 1), Err(Refusal::SubjectOutOfPlan)),
        (2, ballot(3, 0, 0), Err(Refusal::SubjectOutOfPlan)),
        (2, ballot(3, 0, 4), Err(Refusal::SubjectOutOfPlan)),
    ];
    for (process, subject, expected) in rows {
        assert_same(&rt, hall.read::<Tag>(process, subject), expected);
    }
    assert_same(
        &rt,
        hall.read::<Ballot>(2, item(3, 1)),
        Ok(Reading::Value(3)),
    );
    assert_same(
        &rt,
        hall.read::<Record>(2, item(3, 1)),
        Ok(Reading::Unreadable),
    );
    Ok(())
}

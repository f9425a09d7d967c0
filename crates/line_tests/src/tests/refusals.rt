// What the turns and the opening refuse, and what they then leave.
use crate::tests::*;
use carrier::Carrier;
use carriers::Queue;
use item::Tag;
use line::open_line;
use memory::Memory;
use plan::{Draft, Line, Plan};
use protocol::{Message, Refusal, Step};
use reading::Reading;
use rules::{Announced, Delivered};
use std::process::Abort;
use std::test::Fail;
use tray::Tray;

fn refused<C: Carrier>(
    draft: Draft,
    memory: &mut Memory,
    carrier: &C,
) -> Result<(Refusal, Draft), Fail> {
    open_line(draft, memory, carrier)
        .err()
        .ok_or_else(|| Fail::new("opened"))
}

// Process 3 is faulty.
fn line_of(plan: Plan) -> Result<Line, Refusal> {
    Ok(Line::from(draft_with_faulty(plan, 3..4)?))
}

// A message waits, and the calls name a process outside the plan.
fn all_refuse<C: Carrier>(
    rt: &impl Abort,
    memory: &mut Memory,
    carrier: &mut C,
    opening: Refusal,
    others: Refusal,
) -> Result<(), Fail> {
    let plan = Plan::new(4, 1, 2, 1, 3)?;
    let message = Message::new(4, 0, Step::Echo, item(4, 2), 1)?;
    carrier.post(message)?;
    let (refusal, draft) = refused(Draft::new(plan), memory, carrier)?;
    assert_same(rt, refusal, opening);
    let mut hall = Hall::new(Line::from(draft), memory, carrier);
    assert_same(rt, hall.announce(4, &Tag::new(1)?), Err(others));
    assert_same(rt, hall.forge(message), Err(others));
    assert_same(rt, hall.deliver(4, 0), Err(others));
    assert_same(rt, hall.read::<Tag>(4, item(4, 2)), Err(others));
    assert_same(rt, hall.waiting_for(0), 1);
    assert_same(rt, hall.free(), 0);
    Ok(())
}

#[test]
fn a_place_too_few_is_refused_by_all(rt: HostRuntime) -> Result<(), Fail> {
    let short = Refusal::MemoryTooSmall;
    let rows = [
        (
            [176, 1408, 4, 4],
            Refusal::MessageWaiting,
            Refusal::ProcessOutOfRange,
        ),
        ([175, 1408, 4, 4], short, short),
        ([176, 1407, 4, 4], short, short),
        ([176, 1408, 3, 4], short, short),
        ([176, 1408, 4, 3], short, short),
        ([0, 0, 0, 0], short, short),
    ];
    for ([records, bodies, cases, serials], opening, others) in rows {
        let mut memory = Memory {
            broadcasts: &mut [ODD; 176][0..records.min(176)],
            bodies: &mut [Some(9); 1408][0..bodies.min(1408)],
            cases: &mut [ODD_CASE; 4][0..cases.min(4)],
            serials: &mut [255; 4][0..serials.min(4)],
        };
        let mut places = [Message::BLANK; 1];
        all_refuse(
            &rt,
            &mut memory,
            &mut Queue::new(&mut places),
            opening,
            others,
        )?;
        assert_same(&rt, heard(&memory), bodies);
    }
    Ok(())
}

// Whatever n is, a message for any of the processes 0 to 15 keeps the line from being opened.
#[test]
fn opening_waits_for_an_empty_carrier(rt: HostRuntime) -> Result<(), Fail> {
    let mut memory = Memory {
        broadcasts: &mut [ODD; 16],
        bodies: &mut [Some(9); 128],
        cases: &mut [],
        serials: &mut [255; 4],
    };
    for addressee in 0..16 {
        let mut places = [Message::BLANK; 1];
        let mut queue = Queue::new(&mut places);
        queue.post(Message::new(0, addressee, Step::Echo, ITEM, 1)?)?;
        let draft = draft_with_faulty(Plan::new(4, 1, 1, 0, 1)?, 3..4)?;
        let (refusal, draft) = refused(draft, &mut memory, &queue)?;
        assert_same(&rt, refusal, Refusal::MessageWaiting);
        assert!(rt; draft.is_faulty(3));
        assert_same(&rt, heard(&memory), 128);
        assert_same(&rt, queue.waiting_for(addressee), 1);
    }
    Ok(())
}

// Two serials for each process, and room for three announcements.
#[test]
fn announcing_takes_serials_and_room(rt: HostRuntime) -> Result<(), Fail> {
    let memory = &mut Memory {
        broadcasts: &mut [BroadcastRecord::SILENT; 32],
        bodies: &mut [None; 256],
        cases: &mut [],
        serials: &mut [0, 0, 1, 0],
    };
    let mut places = [Message::BLANK; 15];
    let line = line_of(Plan::new(4, 1, 2, 0, 1)?)?;
    let carrier = &mut Queue::new(&mut places);
    let mut hall = Hall::new(line, memory, carrier);
    let first = Announced {
        serial: 0,
        posted: 4,
    };
    let second = Announced { serial: 1, ..first };
    let rows = [
        (0, Ok(first)),
        (0, Ok(second)),
        (0, Err(Refusal::SerialsUsedUp)),
        (3, Err(Refusal::WrongRole)),
        (4, Err(Refusal::ProcessOutOfRange)),
        (u64::MAX, Err(Refusal::ProcessOutOfRange)),
        (2, Ok(second)),
        (2, Err(Refusal::SerialsUsedUp)),
        (3, Err(Refusal::WrongRole)),
        (1, Err(Refusal::NoRoom)),
        (1, Err(Refusal::NoRoom)),
    ];
    for (process, expected) in rows {
        assert_same(&rt, hall.announce(process, &Tag::new(5)?), expected);
    }
    assert_same(&rt, hall.free(), 3);
    assert_same(&rt, memory.next_serial(0), 2);
    assert_same(&rt, memory.next_serial(1), 0);
    Ok(())
}

// Room for three forged messages. The plan has 1 serial, and 1 case of 1 phase.
#[test]
fn forging_is_for_faulty_senders_within_the_plan(rt: HostRuntime) -> Result<(), Fail> {
    let mut places = [Message::BLANK; 3];
    let line = line_of(Plan::new(4, 1, 1, 1, 1)?)?;
    let memory = &mut Memory {
        broadcasts: &mut [BroadcastRecord::SILENT; 64],
        bodies: &mut [None; 512],
        cases: &mut [ODD_CASE; 4],
        serials: &mut [0; 4],
    };
    let carrier = &mut Queue::new(&mut places);
    let mut hall = Hall::new(line, memory, carrier);
    let rows = [
        (4, 0, item(4, 0), Err(Refusal::ProcessOutOfRange)),
        (3, 4, item(4, 0), Err(Refusal::ProcessOutOfRange)),
        (0, 15, item(0, 0), Err(Refusal::ProcessOutOfRange)),
        (0, 0, item(0, 0), Err(Refusal::WrongRole)),
        (2, 0, item(4, 0), Err(Refusal::WrongRole)),
        (3, 0, item(4, 0), Err(Refusal::SubjectOutOfPlan)),
        (3, 0, item(0, 1), Err(Refusal::SubjectOutOfPlan)),
        (3, 0, ballot(0, 1, 1), Err(Refusal::SubjectOutOfPlan)),
        (3, 0, ballot(0, 0, 0), Err(Refusal::SubjectOutOfPlan)),
        (3, 0, ballot(0, 0, 4), Err(Refusal::SubjectOutOfPlan)),
        (3, 0, item(0, 0), Ok(1)),
        (3, 3, ballot(3, 0, 3), Ok(1)),
        (3, 0, item(0, 0), Ok(1)),
        (3, 0, item(0, 0), Err(Refusal::NoRoom)),
        (3, 0, item(0, 1), Err(Refusal::SubjectOutOfPlan)),
    ];
    for (sender, addressee, subject, expected) in rows {
        let message = Message::new(sender, addressee, Step::Ready, subject, 7)?;
        assert_same(&rt, hall.forge(message), expected);
    }
    assert_same(&rt, hall.waiting_for(0), 2);
    Ok(())
}

// A ready waits for process 0 and one for the faulty process 3, which needs no room. `left`
// messages wait for it after it took one.
fn delivers_in<C: Carrier>(
    rt: &impl Abort,
    memory: &mut Memory,
    carrier: &mut C,
    expected: Result<Delivered, Refusal>,
    left: u32,
) -> Result<(), Fail> {
    let mut hall = Hall::new(line_of(Plan::new(4, 1, 1, 0, 1)?)?, memory, carrier);
    assert_same(rt, hall.deliver(0, 0), Err(Refusal::NothingWaiting));
    for addressee in [0, 3] {
        hall.post(Message::new(1, addressee, Step::Ready, ITEM, 7)?)?;
    }
    let free = hall.free();
    assert_same(rt, hall.deliver(0, 0), expected);
    if expected.is_err() {
        assert_same(rt, hall.free(), free);
        assert_same(rt, hall.waiting_for(0), 1);
        assert_same(rt, hall.read::<Tag>(0, ITEM), Ok(Reading::Nothing));
    }
    assert_same(rt, hall.deliver(3, 0), Ok(NOTHING));
    assert_same(rt, hall.waiting_for(3), left);
    Ok(())
}

// All body places hold 7, so that one ready of 7 takes process 0 through all stages: 8 messages, 2
// of them for process 3.
#[test]
fn delivering_wants_room_for_two_to_each(rt: HostRuntime) -> Result<(), Fail> {
    let accepted = Delivered {
        posted: 8,
        accepted: true,
    };
    let rows = [
        (2, Err(Refusal::NoRoom), 0),
        (9, Err(Refusal::NoRoom), 0),
        (10, Ok(accepted), 2),
    ];
    let mut memory = Memory {
        broadcasts: &mut [BroadcastRecord::SILENT; 16],
        bodies: &mut [Some(7); 128],
        cases: &mut [],
        serials: &mut [0; 4],
    };
    for (capacity, expected, left) in rows {
        let mut places = [Message::BLANK; 10];
        let part = &mut places[0..capacity.min(10)];
        delivers_in(&rt, &mut memory, &mut Queue::new(part), expected, left)?;
    }
    Ok(())
}

// Process 0 of nine announces. `free` places are free then.
fn announces_in<C: Carrier>(
    rt: &impl Abort,
    memory: &mut Memory,
    carrier: &mut C,
    expected: Result<Announced, Refusal>,
    free: u32,
) -> Result<(), Fail> {
    let mut hall = Hall::new(line_of(Plan::new(9, 2, 1, 0, 1)?)?, memory, carrier);
    assert_same(rt, hall.announce(0, &Tag::new(5)?), expected);
    assert_same(rt, hall.free(), free);
    Ok(())
}

// A tray with its 8 places over none or one.
#[test]
fn announcing_wants_room_for_one_to_each(rt: HostRuntime) -> Result<(), Fail> {
    let announced = Announced {
        serial: 0,
        posted: 9,
    };
    let rows = [(0, Err(Refusal::NoRoom), 8), (1, Ok(announced), 0)];
    let mut memory = Memory {
        broadcasts: &mut [BroadcastRecord::SILENT; 81],
        bodies: &mut [None; 1458],
        cases: &mut [],
        serials: &mut [0; 9],
    };
    for (below, expected, free) in rows {
        let mut places = [Message::BLANK; 1];
        let mut tray = Tray::new(Queue::new(&mut places[0..below.min(1)]));
        announces_in(&rt, &mut memory, &mut tray, expected, free)?;
    }
    Ok(())
}

use crate::tests::assert_same;
use carrier::is_idle;
use carriers::Queue;
use coin::WordCoin;
use item::{AnyBody, Item, Record, Tag};
use memory::{BroadcastRecord, CaseRecord, Decision, Memory};
use plan::{Draft, Plan};
use protocol::{Message, Side, Subject};
use reading::{Reading, read};
use rules::Advanced;
use runs::{Answer, Turn, perform, run, run_shared};
use std::array;
use std::test::Fail;

fn item(originator: u64) -> Subject {
    Subject::Item {
        originator,
        serial: 0,
    }
}

fn deliver() -> Turn<Tag> {
    Turn::Deliver {
        process: 0,
        pick: 0,
    }
}

fn advance() -> Turn<Tag> {
    Turn::Advance {
        process: 0,
        case: 0,
    }
}

// A process alone announces an item, and goes through a case to its last round. The first turn is
// refused.
fn turns(value: Tag) -> [Turn<Tag>; 17] {
    [
        deliver(),
        Turn::Announce { process: 0, value },
        deliver(),
        deliver(),
        deliver(),
        Turn::Open {
            process: 0,
            case: 0,
            vote: 1,
        },
        deliver(),
        deliver(),
        deliver(),
        advance(),
        deliver(),
        deliver(),
        deliver(),
        advance(),
        deliver(),
        deliver(),
        deliver(),
    ]
}

#[test]
fn a_run_is_a_list_of_turns(rt: HostRuntime) -> Result<(), Fail> {
    let coin = WordCoin::new(0);
    let mut places = [Message::BLANK; 3];
    let mut carrier = Queue::new(&mut places);
    let mut memory = Memory {
        broadcasts: &mut [BroadcastRecord::SILENT; 4],
        bodies: &mut [None; 8],
        cases: &mut [CaseRecord::UNOPENED],
        serials: &mut [9],
    };
    let draft = Draft::new(Plan::new(1, 0, 1, 1, 1)?);
    let turns = turns(Tag::new(5)?);
    let opened = run(draft, &mut memory, &mut carrier, &coin, &turns);
    let line = opened.map_err(|(refusal, _draft)| refusal)?;
    assert!(rt; is_idle(&carrier));
    assert_same(&rt, memory.next_serial(0), 1);
    assert_same(&rt, memory.case_record(0).round, 3);
    for (place, expected) in [(0, 5), (1, 1), (2, 1), (3, 3)] {
        assert_same(&rt, memory.stage(place).accepted(), Some(expected));
    }
    let answer = perform(&line, &mut memory, &mut carrier, &coin, &advance())?;
    let last = Advanced {
        round: 4,
        posted: 0,
    };
    assert_same(&rt, answer, Answer::Advanced(last));
    let decided = Decision {
        side: Side::Release,
        phase: 1,
    };
    assert_same(&rt, memory.case_record(0).decision, Some(decided));
    Ok(())
}

// Over a shared coin the same turns do the same.
#[test]
fn a_shared_run_is_one_too(rt: HostRuntime) -> Result<(), Fail> {
    let mut places = [Message::BLANK; 3];
    let mut carrier = Queue::new(&mut places);
    let mut memory = Memory {
        broadcasts: &mut [BroadcastRecord::SILENT; 4],
        bodies: &mut [None; 8],
        cases: &mut [CaseRecord::UNOPENED],
        serials: &mut [9],
    };
    let draft = Draft::new(Plan::new(1, 0, 1, 1, 1)?);
    let turns = turns(Tag::new(5)?);
    let coin = WordCoin::new(0);
    let opened = run_shared(draft, &mut memory, &mut carrier, &coin, &turns);
    opened.map_err(|(refusal, _draft)| refusal)?;
    assert!(rt; is_idle(&carrier));
    assert_same(&rt, memory.next_serial(0), 1);
    assert_same(&rt, memory.case_record(0).round, 3);
    Ok(())
}

#[test]
fn a_shared_run_may_have_no_turn(rt: HostRuntime) -> Result<(), Fail> {
    let mut carrier = Queue::new(&mut []);
    let mut memory = Memory {
        broadcasts: &mut [BroadcastRecord::SILENT; 4],
        bodies: &mut [None; 8],
        cases: &mut [CaseRecord::UNOPENED],
        serials: &mut [9],
    };
    let draft = Draft::new(Plan::new(1, 0, 1, 1, 1)?);
    let none: [Turn<Tag>; 0] = [];
    let coin = WordCoin::new(0);
    let opened = run_shared(draft, &mut memory, &mut carrier, &coin, &none);
    opened.map_err(|(refusal, _draft)| refusal)?;
    assert_same(&rt, memory.next_serial(0), 0);
    Ok(())
}

// Process 0 announces a tag and process 1 a record, in one list of turns. Then each in turn is
// delivered a message, until none is left.
#[test]
fn a_run_may_announce_items_of_two_types(rt: HostRuntime) -> Result<(), Fail> {
    let tag = Tag::new(5)?;
    let record = Record::new(7, 2, 311, 9770, 14)?;
    let bodies = [tag.pack(), record.pack()];
    let turns: [Turn<AnyBody>; 22] = array::from_fn(|k| {
        let process = k as u64 % 2;
        if k < 2 {
            let value = AnyBody { body: bodies[k] };
            Turn::Announce { process, value }
        } else {
            Turn::Deliver { process, pick: 0 }
        }
    });
    let mut places = [Message::BLANK; 16];
    let mut carrier = Queue::new(&mut places);
    let mut memory = Memory {
        broadcasts: &mut [BroadcastRecord::SILENT; 4],
        bodies: &mut [None; 16],
        cases: &mut [],
        serials: &mut [0; 2],
    };
    let draft = Draft::new(Plan::new(2, 0, 1, 0, 1)?);
    let coin = WordCoin::new(0);
    let opened = run(draft, &mut memory, &mut carrier, &coin, &turns);
    let line = opened.map_err(|(refusal, _draft)| refusal)?;
    assert!(rt; is_idle(&carrier));
    for process in 0..2 {
        let first = read::<Tag>(&line, &memory, process, item(0))?;
        assert_same(&rt, first, Reading::Value(tag));
        let second = read::<Record>(&line, &memory, process, item(1))?;
        assert_same(&rt, second, Reading::Value(record));
        let other = read::<Tag>(&line, &memory, process, item(1))?;
        assert_same(&rt, other, Reading::Unreadable);
    }
    Ok(())
}

use crate::tests::assert_same;
use crate::tests::playing::{Hall, accepted};
use carriers::Queue;
use coin::WordCoin;
use item::Tag;
use memory::{CaseRecord, Decision, Memory, Slip};
use plan::{Draft, Line, Plan};
use protocol::{Message, Refusal, Side};
use std::test::Fail;

type Answers = (
    Result<u64, Refusal>,
    Result<u64, Refusal>,
    Result<u64, Refusal>,
);

// A process alone, which has accepted release, release and its proposal. What memory holds of its
// case and serials is told.
fn run_alone<A, F>(case: CaseRecord, serial: u8, run: F) -> Result<A, Fail>
where
    F: FnOnce(&mut Hall<Queue, WordCoin>) -> Result<A, Fail>,
    requires { F.IsAlwaysCallable run }
{
    let mut places = [Message::BLANK; 3];
    let mut hall = Hall {
        line: Line::from(Draft::new(Plan::new(1, 0, 1, 1, 1)?)),
        memory: Memory {
            broadcasts: &mut [accepted(5), accepted(1), accepted(1), accepted(3)],
            bodies: &mut [None; 8],
            cases: &mut [case],
            serials: &mut [serial],
        },
        carrier: &mut Queue::new(&mut places),
        coin: &WordCoin::new(0),
    };
    run(&mut hall)
}

// The process advances to a round, opens the case and announces an item, as far as it may.
fn answers(round: u8, serial: u8) -> Result<Answers, Fail> {
    let case = CaseRecord {
        round,
        ..CaseRecord::UNOPENED
    };
    run_alone(case, serial, |hall| {
        let reached = hall.advance(0).map(|reached| reached.round);
        let opened = hall.open_case(0, 1);
        let announced = hall
            .announce(0, &Tag::new(6)?)
            .map(|announced| announced.serial);
        Ok((reached, opened, announced))
    })
}

#[test]
fn stored_numbers_are_taken_as_they_are(rt: HostRuntime) -> Result<(), Fail> {
    let rest = Err(Refusal::MayNotAdvance);
    let opened = Err(Refusal::CaseAlreadyOpened);
    let used = Err(Refusal::SerialsUsedUp);
    let rows = [
        (0, 0, (rest, Ok(1), Ok(0))),
        (1, 1, (Ok(2), opened, used)),
        (3, 2, (Ok(4), opened, used)),
        (4, 255, (rest, opened, used)),
        (255, 0, (rest, opened, Ok(0))),
    ];
    for (round, serial, expected) in rows {
        assert_same(&rt, answers(round, serial)?, expected);
    }
    Ok(())
}

// Before the case is opened there is a decision already, of a phase that the plan has not. Neither
// opening nor a later decision changes it.
#[test]
fn the_stored_decision_stands(rt: HostRuntime) -> Result<(), Fail> {
    let early = Decision {
        side: Side::Keep,
        phase: 9,
    };
    let case = CaseRecord {
        round: 0,
        decision: Some(early),
        slip: Slip::Out,
    };
    run_alone(case, 0, |hall| {
        assert_same(&rt, hall.open_case(0, 1)?, 1);
        for round in 1..4 {
            assert_same(&rt, hall.memory.case_record(0).round, round);
            assert_same(&rt, hall.memory.case_record(0).decision, Some(early));
            let _ = hall.advance(0)?;
        }
        assert_same(&rt, hall.memory.case_record(0).decision, Some(early));
        assert_same(&rt, hall.memory.case_record(0).slip, Slip::Out);
        Ok(())
    })
}

use crate::tests::assert_same;
use memory::{BroadcastRecord, CaseRecord, Memory, Place, Slip, Stage, case_place, place_of};
use plan::Plan;
use protocol::Subject;
use std::test::Fail;

const READIED: BroadcastRecord = BroadcastRecord {
    stage: Stage::Readied,
};

const OPENED: CaseRecord = CaseRecord {
    round: 9,
    decision: None,
    slip: Slip::Out,
};

fn item(originator: u64, serial: u64) -> Subject {
    Subject::Item { originator, serial }
}

fn ballot(originator: u64, case: u64, round: u64) -> Subject {
    Subject::Ballot {
        originator,
        case,
        round,
    }
}

#[test]
fn records_fill_the_largest_plan(rt: HostRuntime) -> Result<(), Fail> {
    let plan = Plan::new(16, 5, 32, 8, 16)?;
    let rows = [
        (0, item(0, 0), Some(0)),
        (0, item(0, 31), Some(31)),
        (0, ballot(0, 0, 1), Some(32)),
        (0, ballot(0, 7, 48), Some(415)),
        (0, item(1, 0), Some(416)),
        (1, item(0, 0), Some(6_656)),
        (15, ballot(15, 7, 48), Some(106_495)),
        (16, item(0, 0), None),
        (0, item(16, 0), None),
        (0, item(0, 32), None),
        (0, ballot(0, 8, 1), None),
        (0, ballot(0, 0, 0), None),
        (0, ballot(0, 0, 49), None),
        (u64::MAX, ballot(u64::MAX, u64::MAX, u64::MAX), None),
    ];
    for (process, subject, expected) in rows {
        let found = place_of(&plan, process, subject).map(|place| place.record);
        assert_same(&rt, found, expected);
    }
    let last = Place {
        record: 106_495,
        echoes: 3_407_840,
        readies: 3_407_856,
    };
    assert_same(&rt, place_of(&plan, 15, ballot(15, 7, 48)), Some(last));
    assert_same(&rt, case_place(&plan, 15, 7), Some(127));
    assert_same(&rt, case_place(&plan, 15, 8), None);
    assert_same(&rt, case_place(&plan, 16, 0), None);
    Ok(())
}

#[test]
fn each_part_may_be_too_short(rt: HostRuntime) -> Result<(), Fail> {
    let plan = Plan::new(1, 0, 1, 1, 1)?;
    let rows = [
        ([4, 8, 1, 1], true),
        ([3, 8, 1, 1], false),
        ([4, 7, 1, 1], false),
        ([4, 8, 0, 1], false),
        ([4, 8, 1, 0], false),
    ];
    for ([records, places, cases, serials], expected) in rows {
        let memory = Memory {
            broadcasts: &mut [READIED; 4][0..records.min(4)],
            bodies: &mut [None; 8][0..places.min(8)],
            cases: &mut [OPENED; 1][0..cases.min(1)],
            serials: &mut [0; 1][0..serials.min(1)],
        };
        assert_same(&rt, memory.is_enough(&plan), expected);
    }
    Ok(())
}

#[test]
fn clearing_ends_where_the_need_ends(rt: HostRuntime) -> Result<(), Fail> {
    let plan = Plan::new(1, 0, 1, 1, 1)?;
    let mut memory = Memory {
        broadcasts: &mut [READIED; 5],
        bodies: &mut [Some(7); 9],
        cases: &mut [OPENED; 2],
        serials: &mut [3; 2],
    };
    memory.clear(&plan);
    assert_same(&rt, memory.stage(3), Stage::Silent);
    assert_same(&rt, memory.stage(4), Stage::Readied);
    assert!(rt; memory.bodies.len() == 9);
    assert_same(&rt, memory.bodies[7], None);
    assert_same(&rt, memory.bodies[8], Some(7));
    assert_same(&rt, memory.case_record(0), CaseRecord::UNOPENED);
    assert_same(&rt, memory.case_record(1), OPENED);
    assert_same(&rt, memory.next_serial(0), 0);
    assert_same(&rt, memory.next_serial(1), 3);
    memory.set_next_serial(0, 1);
    memory.set_next_serial(2, 1);
    memory.set_case_record(0, OPENED);
    assert_same(&rt, memory.next_serial(0), 1);
    assert_same(&rt, memory.case_record(0), OPENED);
    Ok(())
}

// Slips on their own line and on others. Every test gives its slips back before it ends.
use crate::tests::assert_same;
use memory::{BroadcastRecord, CaseRecord, Decision, Memory, Slip};
use plan::{Draft, Line, Plan};
use protocol::{Refusal, Side};
use slips::{ReleaseSlip, hand_over, issue, put_back};
use std::process::Abort;
use std::test::Fail;

const fn decided(side: Side, slip: Slip) -> CaseRecord {
    CaseRecord {
        round: 4,
        decision: Some(Decision { side, phase: 1 }),
        slip,
    }
}

fn issue_refused(
    rt: &impl Abort,
    line: &Line,
    memory: &mut Memory,
    process: u64,
    case: u64,
    expected: Refusal,
) {
    match issue(line, memory, process, case) {
        Ok(_slip) => panic!(rt; "a slip was issued"),
        Err(refusal) => assert_same(rt, refusal, expected),
    }
}

fn taken(rt: &impl Abort, answer: Result<(), (Refusal, ReleaseSlip)>) {
    if let Err((_refusal, _slip)) = answer {
        panic!(rt; "the slip came back");
    }
}

// The slip that comes back with the refusal.
fn refused(
    rt: &impl Abort,
    answer: Result<(), (Refusal, ReleaseSlip)>,
    expected: Refusal,
) -> ReleaseSlip {
    match answer {
        Ok(()) => panic!(rt; "the slip was taken"),
        Err((refusal, slip)) => {
            assert_same(rt, refusal, expected);
            slip
        }
    }
}

// Four processes, of which 0 decided release, 1 keep and 2 nothing. Process 3 is faulty.
#[test]
fn issuing_is_refused_in_order(rt: HostRuntime) -> Result<(), Fail> {
    let rows = [
        (3, 4, 1, Refusal::MemoryTooSmall),
        (4, 4, 1, Refusal::ProcessOutOfRange),
        (4, u64::MAX, 1, Refusal::ProcessOutOfRange),
        (4, 3, 1, Refusal::WrongRole),
        (4, 0, 1, Refusal::SubjectOutOfPlan),
        (4, 1, u64::MAX, Refusal::SubjectOutOfPlan),
        (4, 1, 0, Refusal::SlipRefused),
        (4, 2, 0, Refusal::SlipRefused),
    ];
    let mut draft = Draft::new(Plan::new(4, 1, 0, 1, 1)?);
    draft.mark_faulty(3)?;
    let line = Line::from(draft);
    for (serials, process, case, expected) in rows {
        let mut memory = Memory {
            broadcasts: &mut [BroadcastRecord::SILENT; 48],
            bodies: &mut [None; 384],
            cases: &mut [
                decided(Side::Release, Slip::Absent),
                decided(Side::Keep, Slip::Absent),
                CaseRecord::UNOPENED,
                decided(Side::Release, Slip::Absent),
            ],
            serials: &mut [0; 4][0..serials.min(4)],
        };
        issue_refused(&rt, &line, &mut memory, process, case, expected);
    }
    Ok(())
}

// None is issued while one is out, and none after one was handed over.
#[test]
fn a_slip_that_was_put_back_is_issued_again(rt: HostRuntime) -> Result<(), Fail> {
    let line = Line::from(Draft::new(Plan::new(1, 0, 0, 1, 1)?));
    let memory = &mut Memory {
        broadcasts: &mut [BroadcastRecord::SILENT; 3],
        bodies: &mut [None; 6],
        cases: &mut [decided(Side::Release, Slip::Absent)],
        serials: &mut [0],
    };
    let slip = issue(&line, memory, 0, 0)?;
    assert_same(
        &rt,
        memory.case_record(0),
        decided(Side::Release, Slip::Out),
    );
    issue_refused(&rt, &line, memory, 0, 0, Refusal::SlipRefused);
    taken(&rt, put_back(&line, memory, slip));
    assert_same(
        &rt,
        memory.case_record(0),
        decided(Side::Release, Slip::Absent),
    );
    let (slip, process, case) = issue(&line, memory, 0, 0)?.stub();
    issue_refused(&rt, &line, memory, 0, 0, Refusal::SlipRefused);
    taken(&rt, hand_over(&line, memory, slip));
    assert_same(&rt, (process, case), (0, 0));
    issue_refused(&rt, &line, memory, 0, 0, Refusal::SlipRefused);
    assert_same(
        &rt,
        memory.case_record(0),
        decided(Side::Release, Slip::HandedOver),
    );
    Ok(())
}

// Tries to return the slip to a line whose case records all have this slip state. It comes back,
// and nothing changes.
fn comes_back(
    rt: &impl Abort,
    plan: Plan,
    serials: usize,
    state: Slip,
    slip: ReleaseSlip,
    expected: Refusal,
) -> ReleaseSlip {
    let line = Line::from(Draft::new(plan));
    let before = decided(Side::Release, state);
    let mut memory = Memory {
        broadcasts: &mut [BroadcastRecord::SILENT; 96],
        bodies: &mut [None; 768],
        cases: &mut [before; 8],
        serials: &mut [0; 4][0..serials.min(4)],
    };
    let slip = refused(rt, hand_over(&line, &mut memory, slip), expected);
    let slip = refused(rt, put_back(&line, &mut memory, slip), expected);
    for record in memory.cases.iter() {
        assert_same(rt, *record, before);
    }
    slip
}

// The slip of process 3 and case 1 of a line with four processes and two cases.
#[test]
fn a_slip_comes_back_from_another_line(rt: HostRuntime) -> Result<(), Fail> {
    let plan = Plan::new(4, 1, 0, 2, 1)?;
    let fewer = Plan::new(3, 0, 0, 1, 1)?;
    let shorter = Plan::new(4, 1, 0, 1, 1)?;
    let rows = [
        (fewer, 2, Slip::Absent, Refusal::MemoryTooSmall),
        (fewer, 4, Slip::Absent, Refusal::ProcessOutOfRange),
        (shorter, 4, Slip::Absent, Refusal::SubjectOutOfPlan),
        (plan, 4, Slip::Absent, Refusal::SlipRefused),
        (plan, 4, Slip::HandedOver, Refusal::SlipRefused),
    ];
    let line = Line::from(Draft::new(plan));
    let memory = &mut Memory {
        broadcasts: &mut [BroadcastRecord::SILENT; 96],
        bodies: &mut [None; 768],
        cases: &mut [decided(Side::Release, Slip::Absent); 8],
        serials: &mut [0; 4],
    };
    let mut slip = issue(&line, memory, 3, 1)?;
    for (plan, serials, state, expected) in rows {
        slip = comes_back(&rt, plan, serials, state, slip, expected);
    }
    taken(&rt, hand_over(&line, memory, slip));
    assert_same(
        &rt,
        memory.case_record(7),
        decided(Side::Release, Slip::HandedOver),
    );
    Ok(())
}

// A slip is known by its numbers alone: where one with them is out it is taken, and nobody asks for
// the process's role.
#[test]
fn a_slip_is_taken_where_its_numbers_are_out(rt: HostRuntime) -> Result<(), Fail> {
    let plan = Plan::new(4, 1, 0, 1, 1)?;
    let mut draft = Draft::new(plan);
    draft.mark_faulty(0)?;
    let other = Line::from(draft);
    let memory = &mut Memory {
        broadcasts: &mut [BroadcastRecord::SILENT; 48],
        bodies: &mut [None; 384],
        cases: &mut [decided(Side::Release, Slip::Absent); 4],
        serials: &mut [0; 4],
    };
    let slip = issue(&Line::from(Draft::new(plan)), memory, 0, 0)?;
    taken(&rt, put_back(&other, memory, slip));
    assert_same(
        &rt,
        memory.case_record(0),
        decided(Side::Release, Slip::Absent),
    );
    Ok(())
}

// Two slips with the same numbers, of two memories. Where the first was given back, the second is
// refused and comes back.
#[test]
fn a_second_slip_in_a_row_comes_back(rt: HostRuntime) -> Result<(), Fail> {
    let line = Line::from(Draft::new(Plan::new(1, 0, 0, 1, 1)?));
    let memory = &mut Memory {
        broadcasts: &mut [BroadcastRecord::SILENT; 3],
        bodies: &mut [None; 6],
        cases: &mut [decided(Side::Release, Slip::Absent)],
        serials: &mut [0],
    };
    let home = &mut Memory {
        broadcasts: &mut [BroadcastRecord::SILENT; 3],
        bodies: &mut [None; 6],
        cases: &mut [decided(Side::Release, Slip::Absent)],
        serials: &mut [0],
    };
    let first = issue(&line, memory, 0, 0)?;
    let second = issue(&line, home, 0, 0).expect(&rt, "it decided release here too");
    taken(&rt, hand_over(&line, memory, first));
    let second = refused(&rt, hand_over(&line, memory, second), Refusal::SlipRefused);
    let second = refused(&rt, put_back(&line, memory, second), Refusal::SlipRefused);
    assert_same(
        &rt,
        memory.case_record(0),
        decided(Side::Release, Slip::HandedOver),
    );
    taken(&rt, put_back(&line, home, second));
    assert_same(
        &rt,
        home.case_record(0),
        decided(Side::Release, Slip::Absent),
    );
    Ok(())
}

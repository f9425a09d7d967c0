use crate::tests::{accepted, assert_same};
use cases::{Progress, next_step};
use memory::{CaseRecord, Memory};
use plan::Plan;
use protocol::{Ballot, Side};
use std::test::Fail;

// A process that is alone has accepted its release, its release again and its proposal.
fn step_from(round: u8) -> Result<Option<Progress>, Fail> {
    let plan = Plan::new(1, 0, 0, 1, 1)?;
    let memory = Memory {
        broadcasts: &mut [accepted(1), accepted(1), accepted(3)],
        bodies: &mut [None; 6],
        cases: &mut [CaseRecord {
            round,
            ..CaseRecord::UNOPENED
        }],
        serials: &mut [0],
    };
    Ok(next_step(&plan, &memory, 0, 0))
}

fn says(ballot: Ballot) -> Progress {
    Progress {
        next: Some(ballot),
        forced: None,
        decides: None,
    }
}

#[test]
fn one_process_decides_in_a_phase(rt: HostRuntime) -> Result<(), Fail> {
    let release = Some(Side::Release);
    let decided = Progress {
        forced: release,
        decides: release,
        ..says(Ballot::Release)
    };
    assert_same(&rt, step_from(0)?, None);
    assert_same(&rt, step_from(1)?, Some(says(Ballot::Release)));
    assert_same(&rt, step_from(2)?, Some(says(Ballot::ProposeRelease)));
    assert_same(&rt, step_from(3)?, Some(decided));
    assert_same(&rt, step_from(4)?, None);
    Ok(())
}

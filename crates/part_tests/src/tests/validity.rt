use crate::tests::{accepted, assert_same};
use ballots::valid_ballots;
use memory::{BroadcastRecord, CaseRecord, Memory};
use plan::Plan;
use protocol::{Ballot, PROCESSES};
use std::test::Fail;

// Process 0 has accepted a keep and three releases in the first round, and then two keeps, a
// release and an open.
#[test]
fn one_keep_of_four_votes_allows_no_keep(rt: HostRuntime) -> Result<(), Fail> {
    let plan = Plan::new(4, 1, 0, 1, 1)?;
    let mut records = [BroadcastRecord::SILENT; 48];
    records[0] = accepted(0);
    records[1] = accepted(0);
    records[3] = accepted(1);
    records[4] = accepted(0);
    records[6] = accepted(1);
    records[7] = accepted(1);
    records[9] = accepted(1);
    records[10] = accepted(4);
    let memory = Memory {
        broadcasts: &mut records,
        bodies: &mut [None; 384],
        cases: &mut [CaseRecord::UNOPENED; 4],
        serials: &mut [0; 4],
    };
    let mut valid = [None; PROCESSES as usize];
    valid[2] = Some(Ballot::Release);
    assert_same(&rt, valid_ballots(&plan, &memory, 0, 0, 2), valid);
    Ok(())
}

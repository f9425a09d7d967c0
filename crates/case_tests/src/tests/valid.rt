// What is accepted makes ballots valid, and only valid ones count.
use crate::tests::assert_same;
use crate::tests::playing::accepted;
use carriers::Queue;
use coin::WordCoin;
use line::advance;
use memory::{BroadcastRecord, CaseRecord, Decision, Memory};
use plan::{Draft, Line, Plan};
use protocol::{Message, Refusal, Side};
use rules::Advanced;
use std::test::Fail;

type Outcome = (Result<Advanced, Refusal>, Option<Decision>);

// How process 0 of four goes on from a round. Of what it keeps of the case, three records are of
// each originator, one for a round.
fn go_on(round: u8, mut records: [BroadcastRecord; 48]) -> Result<Outcome, Fail> {
    let line = Line::from(Draft::new(Plan::new(4, 1, 0, 1, 1)?));
    let mut places = [Message::BLANK; 4];
    let case = CaseRecord {
        round,
        ..CaseRecord::UNOPENED
    };
    let mut memory = Memory {
        broadcasts: &mut records,
        bodies: &mut [None; 384],
        cases: &mut [case; 4],
        serials: &mut [0; 4],
    };
    let carrier = &mut Queue::new(&mut places);
    let answer = advance(&line, &mut memory, carrier, &WordCoin::new(0), 0, 0);
    Ok((answer, memory.case_record(0).decision))
}

// Three second-round keeps stand on a keep and two releases. No set allows them until another keep
// of the first round is accepted.
#[test]
fn a_ballot_is_invalid_until_a_set_allows_it(rt: HostRuntime) -> Result<(), Fail> {
    let mut records = [BroadcastRecord::SILENT; 48];
    records[0] = accepted(0);
    records[3] = accepted(1);
    records[6] = accepted(1);
    records[1] = accepted(0);
    records[4] = accepted(0);
    records[7] = accepted(0);
    assert_same(&rt, go_on(2, records)?, (Err(Refusal::MayNotAdvance), None));
    records[9] = accepted(0);
    let advanced = Advanced {
        round: 3,
        posted: 4,
    };
    assert_same(&rt, go_on(2, records)?, (Ok(advanced), None));
    Ok(())
}

// Proposals of both sides were accepted after two rounds of releases. Those of keep are not valid.
#[test]
fn of_two_sides_proposed_one_is_valid(rt: HostRuntime) -> Result<(), Fail> {
    let mut records = [BroadcastRecord::SILENT; 48];
    for originator in 0..4usize {
        records[3 * originator] = accepted(1);
        records[3 * originator + 1] = accepted(1);
        records[3 * originator + 2] = accepted(3);
    }
    records[2] = accepted(2);
    let advanced = Advanced {
        round: 4,
        posted: 0,
    };
    let decision = Decision {
        side: Side::Release,
        phase: 1,
    };
    assert_same(&rt, go_on(3, records)?, (Ok(advanced), Some(decision)));
    records[5] = accepted(2);
    assert_same(&rt, go_on(3, records)?, (Err(Refusal::MayNotAdvance), None));
    Ok(())
}

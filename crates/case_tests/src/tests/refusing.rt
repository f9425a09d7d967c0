use crate::tests::assert_same;
use crate::tests::playing::accepted;
use carriers::Queue;
use coin::WordCoin;
use line::{advance, open_case};
use memory::{BroadcastRecord, CaseRecord, Memory};
use plan::{Draft, Line, Plan};
use protocol::{Message, Refusal};
use rules::Advanced;

const FIRST: CaseRecord = CaseRecord {
    round: 1,
    ..CaseRecord::UNOPENED
};

const LAST: CaseRecord = CaseRecord {
    round: 3,
    ..CaseRecord::UNOPENED
};

// Four processes and a case of one phase. Process 3 is faulty.
fn line() -> Result<Line, Refusal> {
    let mut draft = Draft::new(Plan::new(4, 1, 0, 1, 1)?);
    draft.mark_faulty(3)?;
    Ok(Line::from(draft))
}

// Process 0 has opened the case.
fn try_to_open(
    serials: usize,
    free: usize,
    process: u64,
    case: u64,
    vote: u64,
) -> Result<u64, Refusal> {
    let mut places = [Message::BLANK; 4];
    let mut carrier = Queue::new(&mut places[0..free.min(4)]);
    let mut memory = Memory {
        broadcasts: &mut [BroadcastRecord::SILENT; 48],
        bodies: &mut [None; 384],
        cases: &mut [
            FIRST,
            CaseRecord::UNOPENED,
            CaseRecord::UNOPENED,
            CaseRecord::UNOPENED,
        ],
        serials: &mut [0; 4][0..serials.min(4)],
    };
    open_case(&line()?, &mut memory, &mut carrier, process, case, vote)
}

#[test]
fn opening_is_refused_in_order(rt: HostRuntime) {
    let rows = [
        (3, 0, 4, 1, 2, Err(Refusal::MemoryTooSmall)),
        (4, 0, 4, 1, 2, Err(Refusal::ProcessOutOfRange)),
        (4, 0, u64::MAX, 1, 2, Err(Refusal::ProcessOutOfRange)),
        (4, 0, 3, 1, 2, Err(Refusal::WrongRole)),
        (4, 0, 0, 1, 2, Err(Refusal::SubjectOutOfPlan)),
        (4, 0, 0, 0, 2, Err(Refusal::ValueOutOfRange)),
        (4, 0, 0, 0, 1, Err(Refusal::CaseAlreadyOpened)),
        (4, 3, 1, 0, 1, Err(Refusal::NoRoom)),
        (4, 4, 1, 0, 1, Ok(4)),
    ];
    for (serials, free, process, case, vote, expected) in rows {
        assert_same(
            &rt,
            try_to_open(serials, free, process, case, vote),
            expected,
        );
    }
}

// Process 0 may advance from the first round and process 1 from the last, by the keeps and then
// three proposals of keep that it accepted. Process 2 has not opened the case.
fn try_to_advance(
    serials: usize,
    free: usize,
    process: u64,
    case: u64,
) -> Result<Advanced, Refusal> {
    let mut places = [Message::BLANK; 4];
    let mut carrier = Queue::new(&mut places[0..free.min(4)]);
    let mut records = [accepted(0); 48];
    records[14] = accepted(2);
    records[17] = accepted(2);
    records[20] = accepted(2);
    let mut memory = Memory {
        broadcasts: &mut records,
        bodies: &mut [None; 384],
        cases: &mut [FIRST, LAST, CaseRecord::UNOPENED, CaseRecord::UNOPENED],
        serials: &mut [0; 4][0..serials.min(4)],
    };
    let coin = WordCoin::new(0);
    advance(&line()?, &mut memory, &mut carrier, &coin, process, case)
}

#[test]
fn advancing_is_refused_in_order(rt: HostRuntime) {
    let second = Advanced {
        round: 2,
        posted: 4,
    };
    let end = Advanced {
        round: 4,
        posted: 0,
    };
    let rows = [
        (3, 0, 4, 1, Err(Refusal::MemoryTooSmall)),
        (4, 0, 4, 1, Err(Refusal::ProcessOutOfRange)),
        (4, 0, 3, 1, Err(Refusal::WrongRole)),
        (4, 0, 2, 1, Err(Refusal::SubjectOutOfPlan)),
        (4, 0, 2, 0, Err(Refusal::MayNotAdvance)),
        (4, 3, 0, 0, Err(Refusal::NoRoom)),
        (4, 4, 0, 0, Ok(second)),
        (4, 0, 1, 0, Ok(end)),
    ];
    for (serials, free, process, case, expected) in rows {
        assert_same(&rt, try_to_advance(serials, free, process, case), expected);
    }
}

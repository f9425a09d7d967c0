use crate::tests::playing::{FAULTY, KEEP, Lie, RELEASE, Row, play};
use carriers::{Pile, Queue};
use coin::WordCoin;
use protocol::{Message, Side, Step};
use std::test::Fail;

const KEEPS: [u64; 4] = [0; 4];

const RELEASES: [u64; 4] = [1; 4];

const PROPOSALS: [u64; 4] = [2; 4];

const BLANKS: [u64; 4] = [7; 4];

// What is played, and what process 0 says besides.
const LIES: [(Row, [Lie; 2]); 6] = [
    (
        Row {
            t: 1,
            votes: &[FAULTY, KEEP, RELEASE, RELEASE],
            side: Some(Side::Release),
        },
        [(1, Step::Initial, [0, 0, 1, 1]); 2],
    ),
    (
        Row {
            t: 1,
            votes: &[FAULTY, KEEP, RELEASE, RELEASE],
            side: Some(Side::Keep),
        },
        [(1, Step::Initial, [0, 0, 0, 1]), (1, Step::Echo, KEEPS)],
    ),
    (
        Row {
            t: 1,
            votes: &[FAULTY, KEEP, RELEASE, KEEP],
            side: Some(Side::Release),
        },
        [(1, Step::Initial, [0, 0, 1, 1]), (1, Step::Echo, RELEASES)],
    ),
    (
        Row {
            t: 1,
            votes: &[FAULTY, RELEASE, RELEASE, RELEASE],
            side: Some(Side::Release),
        },
        [(1, Step::Initial, RELEASES), (2, Step::Initial, KEEPS)],
    ),
    (
        Row {
            t: 1,
            votes: &[FAULTY, RELEASE, RELEASE, RELEASE],
            side: Some(Side::Release),
        },
        [(1, Step::Initial, RELEASES), (3, Step::Initial, PROPOSALS)],
    ),
    (
        Row {
            t: 1,
            votes: &[FAULTY, KEEP, RELEASE, RELEASE],
            side: Some(Side::Release),
        },
        [(1, Step::Initial, BLANKS); 2],
    ),
];

// Process 0 lies. A ballot of it that too few echo is accepted nowhere, and one that is not valid
// counts for nothing.
#[test]
fn lies_change_no_agreement(rt: HostRuntime) -> Result<(), Fail> {
    let coin = WordCoin::new(0);
    let mut queued = [Message::BLANK; 1000];
    let mut piled = [Message::BLANK; 1000];
    let mut queue = Queue::new(&mut queued);
    let mut pile = Pile::new(&mut piled);
    for (row, lies) in LIES {
        play(&rt, &mut queue, &coin, row, &lies, |hall| hall.settle())?;
        let unsure = Row { side: None, ..row };
        play(&rt, &mut pile, &coin, unsure, &lies, |hall| hall.hurry())?;
    }
    Ok(())
}

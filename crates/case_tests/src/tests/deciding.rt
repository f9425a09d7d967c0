use crate::tests::playing::{FAULTY, KEEP, RELEASE, Row, play};
use carrier::Carrier;
use carriers::{Basket, Pile, Queue};
use coin::WordCoin;
use protocol::{Message, Side};
use std::process::Abort;
use std::test::Fail;
use tray::Tray;

// Where everything is delivered before anybody advances, all go by the votes of the n - t lowest
// processes that vote.
fn decide_in_step<C: Carrier>(rt: &impl Abort, carrier: &mut C) -> Result<(), Fail> {
    let rows: [Row; 12] = [
        Row::new(0, &[KEEP], Some(Side::Keep)),
        Row::new(0, &[RELEASE], Some(Side::Release)),
        Row::new(1, &[KEEP; 4], Some(Side::Keep)),
        Row::new(1, &[RELEASE; 4], Some(Side::Release)),
        Row::new(1, &[KEEP, RELEASE, RELEASE, KEEP], Some(Side::Release)),
        Row::new(1, &[RELEASE, KEEP, KEEP, RELEASE], Some(Side::Keep)),
        Row::new(0, &[RELEASE, RELEASE, KEEP, KEEP], Some(Side::Keep)),
        Row::new(1, &[RELEASE, RELEASE, RELEASE, FAULTY], Some(Side::Release)),
        Row::new(1, &[FAULTY, KEEP, RELEASE, RELEASE], Some(Side::Release)),
        Row::new(2, &[RELEASE; 7], Some(Side::Release)),
        Row::new(
            2,
            &[RELEASE, RELEASE, KEEP, KEEP, RELEASE, KEEP, KEEP],
            Some(Side::Release),
        ),
        Row::new(
            2,
            &[FAULTY, RELEASE, KEEP, RELEASE, KEEP, KEEP, FAULTY],
            Some(Side::Keep),
        ),
    ];
    let coin = WordCoin::new(0);
    for row in rows {
        play(rt, carrier, &coin, row, &[], |hall| hall.settle())?;
    }
    Ok(())
}

// Where they advance as soon as they may, only what all voted for is sure to be decided.
fn decide_in_haste<C: Carrier>(rt: &impl Abort, carrier: &mut C) -> Result<(), Fail> {
    let rows: [Row; 8] = [
        Row::new(0, &[RELEASE], Some(Side::Release)),
        Row::new(1, &[RELEASE; 4], Some(Side::Release)),
        Row::new(1, &[KEEP, KEEP, FAULTY, KEEP], Some(Side::Keep)),
        Row::new(1, &[KEEP, KEEP, RELEASE, RELEASE], None),
        Row::new(1, &[RELEASE, KEEP, RELEASE, KEEP], None),
        Row::new(2, &[KEEP; 7], Some(Side::Keep)),
        Row::new(
            2,
            &[KEEP, KEEP, KEEP, RELEASE, RELEASE, RELEASE, RELEASE],
            None,
        ),
        Row::new(
            2,
            &[RELEASE, KEEP, RELEASE, FAULTY, KEEP, RELEASE, KEEP],
            None,
        ),
    ];
    let coin = WordCoin::new(1);
    for row in rows {
        play(rt, carrier, &coin, row, &[], |hall| hall.hurry())?;
    }
    Ok(())
}

fn decide<C: Carrier>(rt: &impl Abort, carrier: &mut C) -> Result<(), Fail> {
    decide_in_step(rt, carrier)?;
    decide_in_haste(rt, carrier)
}

#[test]
fn cases_end_over_a_queue(rt: HostRuntime) -> Result<(), Fail> {
    decide(&rt, &mut Queue::new(&mut [Message::BLANK; 2000]))
}

#[test]
fn cases_end_over_a_pile(rt: HostRuntime) -> Result<(), Fail> {
    decide(&rt, &mut Pile::new(&mut [Message::BLANK; 2000]))
}

#[test]
fn cases_end_over_a_basket(rt: HostRuntime) -> Result<(), Fail> {
    decide(&rt, &mut Basket::new(&mut [Message::BLANK; 2000]))
}

#[test]
fn cases_end_over_a_tray(rt: HostRuntime) -> Result<(), Fail> {
    decide(&rt, &mut Tray::new(Queue::new(&mut [Message::BLANK; 2000])))
}

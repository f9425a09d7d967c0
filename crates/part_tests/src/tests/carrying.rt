use crate::tests::assert_same;
use carrier::{Carrier, is_idle};
use carriers::{Basket, Pile, Queue};
use protocol::{Message, Refusal, Step, Subject};
use std::process::Abort;
use std::test::Fail;
use tray::Tray;

fn message(addressee: u64, body: u64) -> Result<Message, Refusal> {
    let subject = Subject::Item {
        originator: 0,
        serial: 0,
    };
    Message::new(0, addressee, Step::Initial, subject, body)
}

// Posts messages for the processes 0 and 1 in turn, with their numbers as bodies.
fn post_all<C: Carrier>(carrier: &mut C, count: u32) -> Result<(), Refusal> {
    for number in 0..u64::from(count) {
        carrier.post(message(number % 2, number)?)?;
    }
    Ok(())
}

fn taken<C: Carrier>(carrier: &mut C, process: u64, pick: u64) -> Result<u64, Refusal> {
    Ok(carrier.take(process, pick)?.body())
}

fn empty<C: Carrier>(rt: &impl Abort, carrier: &mut C, process: u64) -> Result<(), Fail> {
    for _ in 0..carrier.waiting_for(process) {
        let _ = taken(carrier, process, 0)?;
    }
    assert_same(rt, taken(carrier, process, 0), Err(Refusal::NothingWaiting));
    Ok(())
}

fn fills_and_empties<C: Carrier>(
    rt: &impl Abort,
    carrier: &mut C,
    capacity: u32,
) -> Result<(), Fail> {
    assert!(rt; is_idle(carrier));
    assert_same(rt, carrier.free(), capacity);
    post_all(carrier, capacity)?;
    assert_same(rt, carrier.free(), 0);
    assert_same(rt, carrier.post(message(0, 0)?), Err(Refusal::NoRoom));
    assert_same(rt, carrier.waiting_for(u64::MAX), 0);
    empty(rt, carrier, 0)?;
    empty(rt, carrier, 1)?;
    assert!(rt; is_idle(carrier));
    Ok(())
}

// Posts five messages. Those for process 0 have the bodies 0, 2 and 4.
fn takes<C: Carrier>(
    rt: &impl Abort,
    carrier: &mut C,
    pick: u64,
    bodies: [u64; 3],
) -> Result<(), Fail> {
    post_all(carrier, 5)?;
    for body in bodies {
        assert_same(rt, taken(carrier, 0, pick), Ok(body));
    }
    assert_same(rt, taken(carrier, 0, pick), Err(Refusal::NothingWaiting));
    assert_same(rt, carrier.waiting_for(1), 2);
    Ok(())
}

fn under_two_trays<C: Carrier + Drop>(
    rt: &impl Abort,
    below: C,
    capacity: u32,
) -> Result<(), Fail> {
    let mut tray = Tray::new(Tray::new(below));
    fills_and_empties(rt, &mut tray, capacity)
}

#[test]
fn a_carrier_without_places_is_empty_and_full(rt: HostRuntime) -> Result<(), Fail> {
    fills_and_empties(&rt, &mut Queue::new(&mut []), 0)
}

#[test]
fn a_tray_over_a_tray_over_a_queue_holds_sixteen_more(rt: HostRuntime) -> Result<(), Fail> {
    let mut places = [Message::BLANK; 3];
    under_two_trays(&rt, Queue::new(&mut places), 19)
}

#[test]
fn a_queue_takes_the_oldest(rt: HostRuntime) -> Result<(), Fail> {
    let mut places = [Message::BLANK; 5];
    takes(&rt, &mut Queue::new(&mut places), 1, [0, 2, 4])
}

#[test]
fn a_pile_takes_the_newest(rt: HostRuntime) -> Result<(), Fail> {
    let mut places = [Message::BLANK; 5];
    takes(&rt, &mut Pile::new(&mut places), 1, [4, 2, 0])
}

#[test]
fn a_basket_takes_what_is_picked(rt: HostRuntime) -> Result<(), Fail> {
    let mut places = [Message::BLANK; 5];
    takes(&rt, &mut Basket::new(&mut places), 4, [2, 0, 4])
}

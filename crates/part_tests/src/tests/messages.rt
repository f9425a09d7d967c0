use crate::tests::assert_same;
use protocol::{Ballot, Message, Refusal, Step, Subject};
use std::test::Fail;

#[test]
fn ends_are_below_sixteen(rt: HostRuntime) {
    let subject = Subject::Item {
        originator: u64::MAX,
        serial: u64::MAX,
    };
    let rows = [
        (0, 0, true),
        (15, 15, true),
        (16, 0, false),
        (0, 16, false),
        (256, 0, false),
        (u64::MAX, u64::MAX, false),
    ];
    for (sender, addressee, whole) in rows {
        let made = Message::new(sender, addressee, Step::Echo, subject, u64::MAX);
        assert_same(&rt, made.is_ok(), whole);
    }
}

#[test]
fn ballots_have_numbers(rt: HostRuntime) -> Result<(), Fail> {
    for number in 0..5 {
        let ballot = Ballot::try_from(number)?;
        assert_same(&rt, ballot.number(), number);
    }
    assert_same(&rt, Ballot::try_from(5), Err(Refusal::ValueOutOfRange));
    assert_same(
        &rt,
        Ballot::try_from(u64::MAX),
        Err(Refusal::ValueOutOfRange),
    );
    Ok(())
}

#[test]
fn a_refusal_is_a_number_and_a_sentence(rt: HostRuntime) -> Result<(), Fail> {
    assert_same(&rt, Refusal::PlanOutOfRange.number(), 1);
    assert_same(&rt, Refusal::LineOutOfPlace.number(), 16);
    let text = Refusal::NoRoom.to_string(rt.alloc())?;
    assert!(rt; text.as_str() == "The carrier has too little room.");
    Ok(())
}

ghost use Rattle.std.specs.Prelude.{◌≡◌, Some};

use crate::tests::assert_same;
use item::{AnyBody, Item, Record, Tag};
use protocol::{Ballot, Refusal};
use std::test::Fail;

// What any item's body is read as.
fn read_back<I: Item>(value: &I) -> Option<I>
    ensures { result ≡ Some value.now }
{
    I::unpack(value.pack())
}

#[test]
fn record_fields_have_ranges(rt: HostRuntime) {
    let rows = [
        ([1, 0, 0, 0, 0], true),
        ([40, 11, 65_535, 65_535, 65_535], true),
        ([0, 0, 0, 0, 0], false),
        ([41, 0, 0, 0, 0], false),
        ([257, 0, 0, 0, 0], false),
        ([1, 12, 0, 0, 0], false),
        ([1, 0, 65_536, 0, 0], false),
        ([1, 0, 0, 65_536, 0], false),
        ([1, 0, 0, 0, 65_536], false),
    ];
    for ([kind, colour, station, day, shelf], whole) in rows {
        assert_same(
            &rt,
            Record::new(kind, colour, station, day, shelf).is_ok(),
            whole,
        );
    }
}

#[test]
fn a_record_is_packed_highest_first(rt: HostRuntime) -> Result<(), Fail> {
    let record = Record::new(1, 2, 3, 4, 5)?;
    assert_same(&rt, record.pack(), 0x0102_0003_0004_0005);
    let read = read_back(&record).ok_or(Refusal::ValueOutOfRange)?;
    assert_same(&rt, read.kind(), 1);
    assert_same(&rt, read.colour(), 2);
    assert_same(&rt, read.station(), 3);
    assert_same(&rt, read.day(), 4);
    assert_same(&rt, read.shelf(), 5);
    Ok(())
}

#[test]
fn few_bodies_are_records(rt: HostRuntime) {
    let rows = [
        (0x0100_0000_0000_0000, true),
        (0x280b_ffff_ffff_ffff, true),
        (0x0000_0000_0000_0000, false),
        (0x2900_0000_0000_0000, false),
        (0x010c_0000_0000_0000, false),
        (0xffff_ffff_ffff_ffff, false),
    ];
    for (body, whole) in rows {
        assert_same(&rt, Record::unpack(body).is_some(), whole);
    }
}

#[test]
fn tags_and_ballots_are_their_numbers(rt: HostRuntime) -> Result<(), Fail> {
    let rows = [(0, false), (1, true), (999_999, true), (1_000_000, false)];
    for (number, whole) in rows {
        assert_same(&rt, Tag::new(number).is_ok(), whole);
        assert_same(&rt, Tag::unpack(number).is_some(), whole);
    }
    assert_same(&rt, Tag::new(999_999)?.pack(), 999_999);
    assert_same(&rt, Ballot::unpack(4).ok_or("not read")?.pack(), 4);
    assert!(rt; Ballot::unpack(5).is_none());
    Ok(())
}

#[test]
fn any_body_is_itself(rt: HostRuntime) -> Result<(), Fail> {
    for body in [0, 5, 1_000_000, u64::MAX] {
        let read = AnyBody::unpack(body).ok_or("not read")?;
        assert_same(&rt, read, AnyBody { body });
        assert_same(&rt, read.pack(), body);
    }
    Ok(())
}

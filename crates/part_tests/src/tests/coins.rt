ghost use Rattle.std.specs.Prelude.{◌≡◌, true};

use crate::tests::assert_same;
use coin::{Coin, DealerStrip, OwnStrip, SharedCoin, WordCoin};
use plan::Plan;
use protocol::Side;
use std::test::Fail;

// Any shared coin shows one process what it shows all.
fn shows_all<C: SharedCoin>(coin: &C, process: u8, case: u8, phase: u8) -> bool
    ensures { result ≡ true }
{
    coin.toss(process, case, phase) == coin.toss_for_all(case, phase)
}

#[test]
fn an_own_strip_has_bytes_for_each_process(rt: HostRuntime) -> Result<(), Fail> {
    let bytes = [1, 0, 3, 0, 0, 0, 2, 255];
    let coin = OwnStrip::new(Plan::new(2, 0, 0, 2, 2)?, &bytes);
    let rows = [
        (0, 0, 1, Side::Release),
        (0, 0, 2, Side::Keep),
        (0, 1, 1, Side::Release),
        (1, 1, 1, Side::Keep),
        (1, 1, 2, Side::Release),
        (2, 0, 1, Side::Keep),
        (2, 0, 0, Side::Keep),
        (255, 255, 255, Side::Keep),
    ];
    for (process, case, phase, side) in rows {
        assert_same(&rt, coin.toss(process, case, phase), side);
    }
    Ok(())
}

#[test]
fn a_dealer_strip_has_bytes_for_each_case(rt: HostRuntime) -> Result<(), Fail> {
    let bytes = [1, 1, 2, 255];
    let coin = DealerStrip::new(Plan::new(2, 0, 0, 2, 2)?, &bytes);
    let rows = [
        (0, 0, Side::Keep),
        (0, 1, Side::Release),
        (1, 0, Side::Keep),
        (1, 1, Side::Keep),
        (1, 2, Side::Release),
        (2, 1, Side::Keep),
        (255, 255, Side::Keep),
    ];
    for (case, phase, side) in rows {
        assert_same(&rt, coin.toss(7, case, phase), side);
    }
    assert!(rt; shows_all(&coin, 255, 1, 2));
    Ok(())
}

#[test]
fn a_word_is_read_from_its_lowest_bit(rt: HostRuntime) {
    let coin = WordCoin::new(0x8000_0000_0000_0001);
    let rows = [
        (0, 0, Side::Keep),
        (0, 1, Side::Release),
        (0, 2, Side::Keep),
        (3, 16, Side::Release),
        (4, 0, Side::Keep),
        (4, 1, Side::Release),
        (0, 65, Side::Release),
    ];
    for (case, phase, side) in rows {
        assert_same(&rt, coin.toss(7, case, phase), side);
    }
    assert!(rt; shows_all(&coin, 255, 4, 1));
}

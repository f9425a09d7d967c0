use crate::tests::assert_same;
use crate::tests::playing::{Hall, opened};
use carrier::Carrier;
use carriers::Queue;
use coin::{Coin, DealerStrip, OwnStrip, WordCoin};
use memory::{BroadcastRecord, CaseRecord, Decision, Memory};
use plan::{Draft, Plan};
use protocol::{Message, Side};
use std::process::Abort;
use std::test::Fail;

impl<'m, 'c, 'k, C: Carrier, K: Coin> Hall<'m, 'c, 'k, C, K> {
    // The votes are keep, keep, release, release. Processes 1 and 2 advance before process 0 votes,
    // and so cast release. The others see all votes and cast keep. The second round is even, the
    // third is open, and so every process tosses the coin.
    fn vote_unevenly(&mut self, rt: &impl Abort) -> Result<(), Fail> {
        for (process, vote) in [(1, 0), (2, 1), (3, 1)] {
            assert_same(rt, self.open_case(process, vote)?, 4);
        }
        self.deliver_all()?;
        for process in [1, 2] {
            assert_same(rt, self.advance(process)?.round, 2);
        }
        assert_same(rt, self.open_case(0, 0)?, 4);
        Ok(())
    }
}

// All go by what the coin shows the processes 0, 1 and 2 for phase 1, and decide it in phase 2.
fn toss<C: Carrier, K: Coin>(
    rt: &impl Abort,
    carrier: &mut C,
    coin: &K,
    side: Side,
) -> Result<(), Fail> {
    let mut memory = Memory {
        broadcasts: &mut [BroadcastRecord::SILENT; 96],
        bodies: &mut [None; 768],
        cases: &mut [CaseRecord::UNOPENED; 4],
        serials: &mut [0; 4],
    };
    let draft = Draft::new(Plan::new(4, 1, 0, 1, 2)?);
    let mut hall = Hall {
        line: opened(draft, &mut memory, carrier)?,
        memory,
        carrier,
        coin,
    };
    hall.vote_unevenly(rt)?;
    hall.settle()?;
    hall.check_end(rt, Some(Decision { side, phase: 2 }));
    Ok(())
}

#[test]
fn coins_are_tossed_where_nothing_is_forced(rt: HostRuntime) -> Result<(), Fail> {
    let plan = Plan::new(4, 1, 0, 1, 2)?;
    let mut places = [Message::BLANK; 300];
    let mut queue = Queue::new(&mut places);
    let rows = [([2, 1], Side::Keep), ([255, 0], Side::Release)];
    for (bytes, side) in rows {
        toss(&rt, &mut queue, &DealerStrip::new(plan, &bytes), side)?;
    }
    let rows = [(0b10, Side::Keep), (0b01, Side::Release)];
    for (word, side) in rows {
        toss(&rt, &mut queue, &WordCoin::new(word), side)?;
    }
    let rows = [
        ([1, 0, 0, 1, 1, 0, 0, 1], Side::Release),
        ([0, 1, 0, 1, 1, 1, 1, 1], Side::Keep),
    ];
    for (bytes, side) in rows {
        toss(&rt, &mut queue, &OwnStrip::new(plan, &bytes), side)?;
    }
    toss(&rt, &mut queue, &OwnStrip::new(plan, &[1]), Side::Keep)
}

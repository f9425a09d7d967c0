// Whole broadcasts, and what faulty processes make of them.
use crate::tests::*;
use carrier::{Carrier, is_idle};
use carriers::{Basket, Pile, Queue};
use item::{Record, Tag};
use memory::Memory;
use plan::{Draft, Plan};
use protocol::{Message, Refusal, Step};
use reading::Reading;
use rules::Announced;
use std::process::Abort;
use std::test::Fail;
use tray::Tray;

// More than a process gets messages in any of these tests.
const ROUNDS: u64 = 128;

// Kind 7, colour 2, station 311, day 9770 and shelf 14.
const BODY: u64 = 0x0702_0137_262a_000e;

impl<'h, 'm, 'c, C: Carrier> Hall<'h, 'm, 'c, C> {
    // Delivers to each process in turn, until nothing waits. Answers how often one accepted.
    fn deliver_all(&mut self, rt: &impl Abort, pick: u64) -> Result<u64, Fail> {
        let mut count = 0u64;
        for _ in 0..ROUNDS {
            for process in 0..self.line.plan().n() {
                if self.waiting_for(process) > 0 {
                    let answer = self.deliver(process, pick)?;
                    count = count.saturating_add(u64::from(answer.accepted));
                }
            }
        }
        assert!(rt; is_idle(self.carrier));
        Ok(count)
    }

    // Process 3 tells the others of its own first item: a body each, or 0 where it tells nothing.
    fn tell(&mut self, step: Step, bodies: [u64; 3]) -> Result<(), Refusal> {
        for (addressee, body) in (0..).zip(bodies) {
            if body > 0 {
                let _ = self.forge(Message::new(3, addressee, step, item(3, 0), body)?)?;
            }
        }
        Ok(())
    }

    // The last process tells one of its own first item, and all faulty ones echo that. The initial
    // comes after the echoes.
    fn tell_one(&mut self, addressee: u64, body: u64) -> Result<(), Refusal> {
        let plan = self.line.plan();
        let subject = item(plan.n() - 1, 0);
        for sender in plan.quorum()..plan.n() {
            let _ = self.forge(Message::new(sender, addressee, Step::Echo, subject, body)?)?;
        }
        let _ = self.forge(Message::new(plan.n() - 1, addressee, Step::Initial, subject, body)?)?;
        Ok(())
    }

    // The correct processes are the first ones, and what they read is of the last one's first item.
    fn all_read(&self, rt: &impl Abort, expected: Reading<u64>) {
        let plan = self.line.plan();
        for process in 0..plan.quorum() {
            assert_same(
                rt,
                self.read::<Tag>(process, item(plan.n() - 1, 0)),
                Ok(expected),
            );
        }
    }
}

// A record of process 0 is accepted once by each process, whatever the memory held before.
fn reaches_all<C: Carrier>(
    rt: &impl Abort,
    plan: Plan,
    memory: &mut Memory,
    carrier: &mut C,
    pick: u64,
) -> Result<(), Fail> {
    let line = opened(Draft::new(plan), memory, carrier)?;
    let mut hall = Hall::new(line, memory, carrier);
    let record = Record::new(7, 2, 311, 9770, 14)?;
    let announced = Announced {
        serial: 0,
        posted: plan.n(),
    };
    assert_same(rt, hall.announce(0, &record)?, announced);
    assert_same(rt, hall.deliver_all(rt, pick)?, plan.n());
    for process in 0..plan.n() {
        assert_same(
            rt,
            hall.read::<Record>(process, ITEM),
            Ok(Reading::Value(BODY)),
        );
        assert_same(rt, hall.read::<Tag>(process, ITEM), Ok(Reading::Unreadable));
    }
    Ok(())
}

// Over each carrier, an item reaches all.
fn reaches_all_by_each(
    rt: &impl Abort,
    plan: Plan,
    memory: &mut Memory,
    places: &mut [Message],
) -> Result<(), Fail> {
    reaches_all(rt, plan, memory, &mut Queue::new(places), 0)?;
    reaches_all(rt, plan, memory, &mut Pile::new(places), 0)?;
    reaches_all(rt, plan, memory, &mut Basket::new(places), 5)?;
    reaches_all(rt, plan, memory, &mut Tray::new(Basket::new(places)), 2)
}

#[test]
fn one_process_accepts_its_own_item(rt: HostRuntime) -> Result<(), Fail> {
    let memory = &mut Memory {
        broadcasts: &mut [ODD; 1],
        bodies: &mut [Some(9); 2],
        cases: &mut [],
        serials: &mut [255; 1],
    };
    reaches_all_by_each(
        &rt,
        Plan::new(1, 0, 1, 0, 1)?,
        memory,
        &mut [Message::BLANK; 3],
    )
}

#[test]
fn four_processes_accept_alike(rt: HostRuntime) -> Result<(), Fail> {
    let memory = &mut Memory {
        broadcasts: &mut [ODD; 16],
        bodies: &mut [Some(9); 128],
        cases: &mut [],
        serials: &mut [255; 4],
    };
    reaches_all_by_each(
        &rt,
        Plan::new(4, 1, 1, 0, 1)?,
        memory,
        &mut [Message::BLANK; 44],
    )
}

#[test]
fn sixteen_processes_accept_alike(rt: HostRuntime) -> Result<(), Fail> {
    let memory = &mut Memory {
        broadcasts: &mut [ODD; 256],
        bodies: &mut [Some(9); 8192],
        cases: &mut [],
        serials: &mut [255; 16],
    };
    reaches_all_by_each(
        &rt,
        Plan::new(16, 5, 1, 0, 1)?,
        memory,
        &mut [Message::BLANK; 560],
    )
}

// What the faulty process 3 tells the processes 0 to 2 of its own item, 0 for nothing: initials,
// echoes and readies. Then how many of them accept, and what each of them reads. With E = 3, R = 2
// and A = 3 the order has no part in it.
const STORIES: [([[u64; 3]; 3], u64, Reading<u64>); 8] = [
    // The correct processes need no help.
    ([[1, 1, 1], [0, 0, 0], [0, 0, 0]], 3, Reading::Value(1)),
    // Two echoes of 1 and one of 2.
    ([[1, 1, 2], [0, 0, 0], [0, 0, 0]], 0, Reading::Nothing),
    // Process 0 hears three echoes of 1. Its ready stays alone.
    ([[1, 1, 2], [1, 0, 0], [0, 0, 0]], 0, Reading::Nothing),
    // A forged ready makes process 1 follow it, and two readies then carry process 2.
    ([[1, 1, 2], [1, 0, 0], [0, 1, 0]], 3, Reading::Value(1)),
    ([[1, 2, 3], [1, 2, 3], [1, 2, 3]], 0, Reading::Nothing),
    ([[0, 0, 0], [5, 5, 5], [5, 5, 5]], 0, Reading::Nothing),
    ([[1, 1, 2], [1, 1, 2], [2, 2, 2]], 3, Reading::Value(1)),
    // No tag has this body.
    (
        [[1_000_000, 1_000_000, 1_000_000], [0, 0, 0], [0, 0, 0]],
        3,
        Reading::Unreadable,
    ),
];

// Opens a line whose last t processes are faulty.
fn open_for_liars<C: Carrier>(
    plan: Plan,
    memory: &mut Memory,
    carrier: &C,
) -> Result<Line, Refusal> {
    let draft = draft_with_faulty(plan, plan.quorum()..plan.n())?;
    opened(draft, memory, carrier)
}

fn stories_end_alike<C: Carrier>(
    rt: &impl Abort,
    memory: &mut Memory,
    carrier: &mut C,
    pick: u64,
) -> Result<(), Fail> {
    for ([initials, echoes, readies], count, expected) in STORIES {
        let line = open_for_liars(Plan::new(4, 1, 1, 0, 1)?, memory, carrier)?;
        let mut hall = Hall::new(line, memory, carrier);
        hall.tell(Step::Initial, initials)?;
        hall.tell(Step::Echo, echoes)?;
        hall.tell(Step::Ready, readies)?;
        assert_same(rt, hall.deliver_all(rt, pick)?, count);
        hall.all_read(rt, expected);
    }
    Ok(())
}

// Each process gets both initials, and echoes the one that comes first.
fn first_of_two_counts<C: Carrier>(
    rt: &impl Abort,
    memory: &mut Memory,
    carrier: &mut C,
    pick: u64,
    first: u64,
) -> Result<(), Fail> {
    let line = open_for_liars(Plan::new(4, 1, 1, 0, 1)?, memory, carrier)?;
    let mut hall = Hall::new(line, memory, carrier);
    hall.tell(Step::Initial, [1, 1, 1])?;
    hall.tell(Step::Initial, [2, 2, 2])?;
    assert_same(rt, hall.deliver_all(rt, pick)?, 3);
    hall.all_read(rt, Reading::Value(first));
    Ok(())
}

#[test]
fn a_faulty_originator_makes_no_difference(rt: HostRuntime) -> Result<(), Fail> {
    let memory = &mut Memory {
        broadcasts: &mut [ODD; 16],
        bodies: &mut [Some(9); 128],
        cases: &mut [],
        serials: &mut [255; 4],
    };
    let places = &mut [Message::BLANK; 64];
    stories_end_alike(&rt, memory, &mut Queue::new(places), 0)?;
    stories_end_alike(&rt, memory, &mut Pile::new(places), 0)?;
    stories_end_alike(&rt, memory, &mut Basket::new(places), 5)?;
    stories_end_alike(&rt, memory, &mut Tray::new(Queue::new(places)), 0)?;
    first_of_two_counts(&rt, memory, &mut Queue::new(places), 0, 1)?;
    first_of_two_counts(&rt, memory, &mut Pile::new(places), 0, 2)?;
    first_of_two_counts(&rt, memory, &mut Basket::new(places), 1, 2)
}

// The plan's n and t, and what the last process tells each of the n - t correct ones; the last t
// are faulty, and each of them echoes to a process what that was told. Then how many processes
// accept, and what each of them reads.
const CAMPS: [(u64, u64, &[u64], u64, Reading<u64>); 9] = [
    // E = 3, R = 2: two and the faulty one are enough.
    (4, 1, &[1, 1, 2], 3, Reading::Value(1)),
    (4, 1, &[1, 2, 3], 0, Reading::Nothing),
    // E = 4: two halves with the faulty process in both are no quorums.
    (5, 1, &[1, 1, 2, 2], 0, Reading::Nothing),
    (5, 1, &[1, 2, 2, 2], 4, Reading::Value(2)),
    // E = 5, R = 3, A = 5.
    (7, 2, &[1, 1, 1, 2, 2], 5, Reading::Value(1)),
    (7, 2, &[1, 1, 2, 2, 3], 0, Reading::Nothing),
    // E = 11, R = 6, A = 11.
    (
        16,
        5,
        &[1, 1, 1, 1, 1, 1, 2, 2, 2, 2, 2],
        11,
        Reading::Value(1),
    ),
    (
        16,
        5,
        &[1, 1, 1, 1, 1, 2, 2, 2, 2, 2, 2],
        11,
        Reading::Value(2),
    ),
    (
        16,
        5,
        &[1, 1, 1, 1, 1, 2, 2, 2, 2, 2, 3],
        0,
        Reading::Nothing,
    ),
];

fn camps_end_alike<C: Carrier>(
    rt: &impl Abort,
    memory: &mut Memory,
    carrier: &mut C,
    pick: u64,
) -> Result<(), Fail> {
    for (n, t, bodies, count, expected) in CAMPS {
        let line = open_for_liars(Plan::new(n, t, 1, 0, 1)?, memory, carrier)?;
        let mut hall = Hall::new(line, memory, carrier);
        for (addressee, body) in (0..).zip(bodies) {
            hall.tell_one(addressee, *body)?;
        }
        assert_same(rt, hall.deliver_all(rt, pick)?, count);
        hall.all_read(rt, expected);
    }
    Ok(())
}

#[test]
fn faulty_processes_divide_no_one(rt: HostRuntime) -> Result<(), Fail> {
    let memory = &mut Memory {
        broadcasts: &mut [ODD; 256],
        bodies: &mut [Some(9); 8192],
        cases: &mut [],
        serials: &mut [255; 16],
    };
    let places = &mut [Message::BLANK; 560];
    camps_end_alike(&rt, memory, &mut Queue::new(places), 0)?;
    camps_end_alike(&rt, memory, &mut Pile::new(places), 0)?;
    camps_end_alike(&rt, memory, &mut Basket::new(places), 7)
}

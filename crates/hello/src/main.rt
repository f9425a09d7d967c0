//! Four counters, of which one is strange: an item is announced and read, a case is decided, and
//! its slip is used. Writes to standard output.
#![tactic(auto)]

use carrier::Carrier;
use carriers::Queue;
use coin::WordCoin;
use item::Tag;
use line::{advance, announce, deliver, open_case, open_line};
use memory::{BroadcastRecord, CaseRecord, Decision, Memory, case_place};
use plan::{Draft, Line, Plan};
use protocol::{Message, Refusal, Subject};
use reading::{Reading, read};
use slips::{hand_over, issue};

// How many messages the carrier has places for.
const PLACES: usize = 256;

fn main(rt: HostRuntime) -> anyhow::Result<()> {
    // Four processes of which one may be faulty, one serial each, one case of two phases.
    // `plan.needs()` tells the four lengths.
    let plan = Plan::new(4, 1, 1, 1, 2)?;
    let mut memory = Memory {
        broadcasts: &mut [BroadcastRecord::SILENT; 112],
        bodies: &mut [None; 896],
        cases: &mut [CaseRecord::UNOPENED; 4],
        serials: &mut [0; 4],
    };
    let mut places = [Message::BLANK; PLACES];
    let mut carrier = Queue::new(&mut places);
    let mut draft = Draft::new(plan);
    draft.mark_faulty(3)?;
    // A refused opening gives the draft back.
    let line = open_line(draft, &mut memory, &carrier).map_err(|(refusal, _)| refusal)?;
    share_an_item(&rt, &line, &mut memory, &mut carrier)?;
    decide_a_case(&rt, &line, &mut memory, &mut carrier)?;
    let slip = issue(&line, &mut memory, 0, 0)?;
    hand_over(&line, &mut memory, slip).unwrap();
    println!(rt; "released")?;
    Ok(())
}

// Counter 0 announces a tag, and the three that are honest read it.
fn share_an_item<C: Carrier>(
    rt: &HostRuntime,
    line: &Line,
    memory: &mut Memory,
    carrier: &mut C,
) -> anyhow::Result<()> {
    let announced = announce(line, memory, carrier, 0, &Tag::new(42)?)?;
    deliver_all(line, memory, carrier)?;
    let subject = Subject::Item {
        originator: 0,
        serial: announced.serial,
    };
    for counter in 0..3 {
        match read::<Tag>(line, memory, counter, subject)? {
            Reading::Value(tag) => println!(rt; "counter {counter} reads tag {}", tag.number())?,
            Reading::Unreadable => println!(rt; "counter {counter} has entered what is no tag")?,
            Reading::Nothing => println!(rt; "counter {counter} has entered nothing")?,
        }
    }
    Ok(())
}

// All three vote for release, and go on until the case has ended.
fn decide_a_case<C: Carrier>(
    rt: &HostRuntime,
    line: &Line,
    memory: &mut Memory,
    carrier: &mut C,
) -> anyhow::Result<()> {
    for counter in 0..3 {
        open_case(line, memory, carrier, counter, 0, 1)?;
    }
    for _ in 0..line.plan().rounds() {
        deliver_all(line, memory, carrier)?;
        advance_all(line, memory, carrier)?;
    }
    for counter in 0..3 {
        let at = case_place(&line.plan(), counter, 0).ok_or(Refusal::SubjectOutOfPlan)?;
        if let Some(Decision { side, phase }) = memory.case_record(at).decision {
            println!(rt; "counter {counter} decided {side:?} in phase {phase}")?;
        }
    }
    Ok(())
}

// Each process gets what waits for it, the oldest first. The loop has to be seen to end, so it is
// counted: the carrier has no more places.
fn deliver_all<C: Carrier>(
    line: &Line,
    memory: &mut Memory,
    carrier: &mut C,
) -> Result<(), Refusal> {
    for _ in 0..PLACES {
        for process in 0..4 {
            if carrier.waiting_for(process) > 0 {
                deliver(line, memory, carrier, process, 0)?;
            }
        }
    }
    Ok(())
}

// The coin is tossed only where the ballots force no side.
fn advance_all<C: Carrier>(
    line: &Line,
    memory: &mut Memory,
    carrier: &mut C,
) -> Result<(), Refusal> {
    let coin = WordCoin::new(0);
    for process in 0..3 {
        advance(line, memory, carrier, &coin, process, 0)?;
    }
    Ok(())
}

//! Tells the way of a violin over a line of four counters, of which one is strange, to its release
//! after a case about it. Writes to standard output.
#![tactic(auto)]

mod claims;
mod finds;
mod release;
mod story;
mod words;

use carriers::{Basket, Watch};
use memory::{BroadcastRecord, CaseRecord, Memory};
use protocol::Message;
use story::{Story, open_four};

// Lends the memory that four processes with two serials each need for a case of two phases.
fn main(rt: HostRuntime) -> anyhow::Result<()> {
    let mut memory = Memory {
        broadcasts: &mut [BroadcastRecord::SILENT; 128],
        bodies: &mut [None; 1024],
        cases: &mut [CaseRecord::UNOPENED; 4],
        serials: &mut [0; 4],
    };
    let mut places = [Message::BLANK; 256];
    let carrier = Watch::new(Basket::new(&mut places));
    let line = open_four(&mut memory, &carrier)?;
    let mut story = Story {
        rt: &rt,
        line,
        memory,
        carrier,
    };
    story.tell()
}

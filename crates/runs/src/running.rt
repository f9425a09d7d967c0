// Making a list of turns on a line that is opened for it.
ghost use Rattle.std.specs.Prelude.{◌≡◌};
ghost use Rattle.memory.specs.Contents.{held};
ghost use Rattle.runs.specs.Ran.{Ran, RanShared};

use crate::performing::perform;
use crate::turns::Turn;
use carrier::Carrier;
use coin::{Coin, SharedCoin};
use item::Item;
use line::open_line;
use memory::Memory;
use plan::{Draft, Line};
use protocol::Refusal;

/// Opens the line and makes the turns one after another, refused ones too, which change nothing.
/// Answers the line. A refused opening gives the draft back, and no turn is made.
///
/// Refused, in this order: the memory is too small (2), a message waits in the carrier (3).
pub fn run<C: Carrier, K: Coin, I: Item>(
    draft: Draft,
    memory: &mut Memory,
    carrier: &mut C,
    coin: &K,
    turns: &[Turn<I>],
) -> Result<Line, (Refusal, Draft)>
    ensures ran { Ran C.waiting C.posting C.taking I.ok I.packed I.unpacked draft (C.capacity carrier.old) (K.shows coin.now) (held memory.old) carrier.old turns.now result (held memory.new) carrier.new }
    ensures kept { C.capacity carrier.new ≡ C.capacity carrier.old }
{
    let line = open_line(draft, memory, carrier)?;
    for turn in turns {
        let _ = perform(&line, memory, carrier, coin, turn);
    }
    Ok(line)
}

/// Does what `run` does, over a coin that shows every process the same side: so the promise that a
/// shared coin decides needs no premise on the coin. Refused as `run` is.
pub fn run_shared<C: Carrier, K: SharedCoin, I: Item>(
    draft: Draft,
    memory: &mut Memory,
    carrier: &mut C,
    coin: &K,
    turns: &[Turn<I>],
) -> Result<Line, (Refusal, Draft)>
    ensures ran { RanShared C.waiting C.posting C.taking I.ok I.packed I.unpacked draft (C.capacity carrier.old) (K.shows coin.now) (K.side coin.now) (held memory.old) carrier.old turns.now result (held memory.new) carrier.new }
    ensures kept { C.capacity carrier.new ≡ C.capacity carrier.old }
{
    run(draft, memory, carrier, coin, turns)
}

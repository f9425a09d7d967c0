// Making one turn of any kind.
ghost use Rattle.std.specs.Prelude.{◌≡◌, OnErr};
ghost use Rattle.memory.specs.Contents.{held};
ghost use Rattle.runs.specs.Performed.{Performed};

use crate::turns::{Answer, Turn};
use carrier::Carrier;
use coin::Coin;
use item::Item;
use line::{advance, announce, deliver, forge, open_case};
use memory::Memory;
use plan::Line;
use protocol::Refusal;

/// Makes one turn of any kind and answers what it answers. Refused as the turn is, by the first of
/// its refusals that fits; then memory and carrier are as they were.
pub fn perform<C: Carrier, K: Coin, I: Item>(
    line: &Line,
    memory: &mut Memory,
    carrier: &mut C,
    coin: &K,
    turn: &Turn<I>,
) -> Result<Answer, Refusal>
    ensures event { Performed C.waiting C.posting C.taking line.now (K.shows coin.now) (held memory.old) I.ok I.packed (C.capacity carrier.old) turn.now result carrier.old (held memory.new) carrier.new }
    ensures kept { C.capacity carrier.new ≡ C.capacity carrier.old }
    ensures unwritten { OnErr result (held memory.new ≡ held memory.old) }
    ensures untouched { OnErr result (carrier.new ≡ carrier.old) }
{
    let answer = match turn {
        Turn::Announce { process, value } => {
            Answer::Announced(announce(line, memory, carrier, *process, value)?)
        }
        Turn::Open {
            process,
            case,
            vote,
        } => Answer::Posted(open_case(line, memory, carrier, *process, *case, *vote)?),
        Turn::Forge { message } => Answer::Posted(forge(line, memory, carrier, *message)?),
        Turn::Deliver { process, pick } => {
            Answer::Delivered(deliver(line, memory, carrier, *process, *pick)?)
        }
        Turn::Advance { process, case } => {
            Answer::Advanced(advance(line, memory, carrier, coin, *process, *case)?)
        }
    };
    Ok(answer)
}

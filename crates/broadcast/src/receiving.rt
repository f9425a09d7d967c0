// Hearing a message, and going on by what was heard.
ghost use Rattle.std.specs.Prelude.{◌≡◌, ◌+◌, ◌<◌, ◌≤◌, length, None, count_by};
ghost use Rattle.memory.specs.Contents.{held, accepted_body};
ghost use Rattle.broadcast.specs.Hearing.{hear, says, listened, agreeing, with_bodies};
ghost use Rattle.broadcast.specs.Stages.{ready_sends, turn, onward};
ghost use Rattle.broadcast.specs.Receiving.{outcome, received};

use crate::reactions::Reaction;
use memory::{BroadcastRecord, Memory, Place, Stage, place_of};
use plan::{Plan, Thresholds};
use protocol::{Message, Step};

/// Lets a process hear a message, changes its record of the subject, and answers what it has to
/// send. Nothing happens unless the plan has process, sender and subject and the memory is
/// enough.
pub fn receive(plan: &Plan, memory: &mut Memory, process: u64, message: &Message) -> Reaction
    ensures { outcome (held memory.new) result ≡ received plan.now process message.now (held memory.old) }
{
    if message.sender() >= plan.n() || !memory.is_enough(plan) {
        return Reaction::NOTHING;
    }
    let Some(place) = place_of(plan, process, message.subject()) else {
        return Reaction::NOTHING;
    };
    if let Stage::Accepted(_) = memory.stage(place.record) {
        return Reaction::NOTHING;
    }
    let count = listen(plan, memory, place, message);
    let record = &mut memory.broadcasts[place.record];
    turn_stage(record, message, count, plan.thresholds())
}

// Hears an echo or a ready in its row of places, and counts those of the same body.
fn listen(plan: &Plan, memory: &mut Memory, place: Place, message: &Message) -> usize
    requires known { message.now.sender < plan.now.n }
    requires echoes { place.echoes + plan.now.n ≤ length memory.old.bodies.now }
    requires readies { place.readies + plan.now.n ≤ length memory.old.bodies.now }
    ensures held { held memory.new ≡ with_bodies (listened place message.now message.now.step memory.old.bodies.now) (held memory.old) }
    ensures count { result ≡ agreeing plan.now.n place message.now message.now.step memory.new.bodies.now }
{
    let first = match message.step() {
        Step::Initial => return 0,
        Step::Echo => place.echoes,
        Step::Ready => place.readies,
    };
    hear(
        &mut memory.bodies[first..first + plan.n() as usize],
        message,
    )
}

// Hears a message in a row with a place for each sender, and counts the places that hold its body.
fn hear(row: &mut [Option<u64>], message: &Message) -> usize
    requires { message.now.sender < length row.old }
    ensures heard { row.new ≡ hear message.now.sender message.now.body row.old }
    ensures count { result ≡ count_by (says message.now.body) row.new }
{
    row[message.sender() as usize].get_or_insert(message.body());
    count_saying(row, message.body())
}

// How many places hold the body.
fn count_saying(row: &[Option<u64>], body: u64) -> usize
    ensures { result ≡ count_by (says body) row.now }
{
    let mut count = 0;
    for heard in row {
        if *heard == Some(body) {
            count += 1;
        }
    }
    count
}

// Goes on from a stage, where `count` echoes or readies of the message's body were heard.
fn turn_stage(
    record: &mut BroadcastRecord,
    message: &Message,
    count: usize,
    limits: Thresholds,
) -> Reaction
    requires open { accepted_body «record».old.stage ≡ None }
    requires ordered { limits.ready ≤ limits.accept }
    ensures stage { «record».new.stage ≡ onward (turn limits message.now count «record».old.stage).next «record».old.stage }
    ensures reaction { result ≡ (turn limits message.now count «record».old.stage).reaction }
{
    match (record.stage, message.step()) {
        (Stage::Silent, Step::Initial) if message.sender() == message.subject().originator() => {
            record.stage = Stage::Echoed;
            Reaction {
                echo: true,
                ..Reaction::NOTHING
            }
        }
        (stage, Step::Echo) if count >= usize::from(limits.echo) => {
            record.stage = Stage::Readied;
            sending(stage)
        }
        (stage, Step::Ready) if count >= usize::from(limits.accept) => {
            record.stage = Stage::Accepted(message.body());
            Reaction {
                accepted: true,
                ..sending(stage)
            }
        }
        (stage, Step::Ready) if count >= usize::from(limits.ready) => {
            record.stage = Stage::Readied;
            sending(stage)
        }
        _ => Reaction::NOTHING,
    }
}

// What a process that is to be ready has yet to send.
fn sending(stage: Stage) -> Reaction
    ensures { result ≡ ready_sends stage }
{
    match stage {
        Stage::Silent => Reaction {
            echo: true,
            ready: true,
            accepted: false,
        },
        Stage::Echoed => Reaction {
            ready: true,
            ..Reaction::NOTHING
        },
        _ => Reaction::NOTHING,
    }
}

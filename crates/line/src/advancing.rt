// Advancing in a case.
ghost use Rattle.std.specs.Prelude.{◌≡◌, ◌+◌, ◌<◌, true, length, IfSome, OnErr};
ghost use Rattle.protocol.specs.Messages.{originator_of};
ghost use Rattle.memory.specs.Contents.{held};
ghost use Rattle.rules.specs.Answers.{Advancement};
ghost use Rattle.rules.specs.Turns.{said, decision_after, subject_after, sent_for, room_for_ballot};
ghost use Rattle.line.specs.Checks.{RoomForBallot};
ghost use Rattle.line.specs.Sent.{Sent};

use crate::checks::{check_correct, check_room_for_all, find_case};
use crate::sending::send_initials;
use carrier::Carrier;
use cases::next_step;
use coin::Coin;
use memory::{CaseRecord, Decision, Memory};
use plan::Line;
use protocol::{Ballot, Refusal, Side, Subject};
use rules::Advanced;

/// A correct process goes on to the next round of a case, by the valid ballots of the n - t lowest
/// originators that have one. From the last round of a phase it may decide; where no side is forced
/// there, the coin is tossed for this process, case and phase. From round 3p on nothing is sent,
/// and the case has ended. Answers the round reached, from 2 to 3p + 1, and how many messages were
/// posted: n, or 0 from round 3p.
///
/// Refused, in this order: the memory is too small (2), `process` is not below n (4) or faulty (6),
/// `case` is not below c (7), the case is not opened or has ended, or fewer than n - t ballots of
/// its round are valid (12), there is a round to come and free is below n (13).
pub fn advance<C: Carrier, K: Coin>(
    line: &Line,
    memory: &mut Memory,
    carrier: &mut C,
    coin: &K,
    process: u64,
    case: u64,
) -> Result<Advanced, Refusal>
    ensures turn { Advancement line.now (C.capacity carrier.old) (held memory.old) (C.waiting carrier.old) C.posting C.taking (K.shows coin.now) process case result carrier.old (held memory.new) (C.waiting carrier.new) carrier.new }
    ensures kept { C.capacity carrier.new ≡ C.capacity carrier.old }
    ensures untouched { OnErr result (carrier.new ≡ carrier.old) }
{
    check_correct(line, memory, process)?;
    let at = find_case(line, process, case)?;
    let step = next_step(&line.plan(), memory, process, case).ok_or(Refusal::MayNotAdvance)?;
    let record = memory.case_record(at);
    let round = u64::from(record.round);
    let next = subject_after(line, process, case, round);
    check_room_for_next(line, carrier, next)?;
    let phase = record.round / 3;
    memory.set_case_record(at, moved(record, step.decides, phase));
    let ballot = said(step.next, coin, process as u8, case as u8, phase);
    let posted = send_next(line, carrier, next, ballot);
    Ok(Advanced {
        round: round + 1,
        posted,
    })
}

// The subject of a process's ballot of the next round, if there is one.
fn subject_after(line: &Line, process: u64, case: u64, round: u64) -> Option<Subject>
    requires { round < 255 }
    ensures { result ≡ subject_after line.now process case round }
{
    let has_next = round < line.plan().rounds();
    has_next.then(|| Subject::Ballot {
        originator: process,
        case,
        round: round + 1,
    })
}

// There has to be room for the next ballot, if there is one.
fn check_room_for_next<C: Carrier>(
    line: &Line,
    carrier: &C,
    next: Option<Subject>,
) -> Result<(), Refusal>
    ensures { RoomForBallot result line.now next (C.capacity carrier.now) (C.waiting carrier.now) }
{
    if next.is_some() {
        check_room_for_all(line, carrier)?;
    }
    Ok(())
}

// The record in the next round. The first decision stands with its phase.
fn moved(record: CaseRecord, decides: Option<Side>, phase: u8) -> CaseRecord
    requires { «record».round < 255 }
    ensures round { result.round ≡ «record».round + 1 }
    ensures decision { result.decision ≡ decision_after «record».decision decides phase }
    ensures slip { result.slip ≡ «record».slip }
{
    let decided = decides.map(|side| Decision { side, phase });
    CaseRecord {
        round: record.round + 1,
        decision: record.decision.or(decided),
        ..record
    }
}

// The ballot to be said next, or a vote for the side that the coin shows.
fn said<K: Coin>(next: Option<Ballot>, coin: &K, process: u8, case: u8, phase: u8) -> Ballot
    ensures { result ≡ said next (K.shows coin.now process case phase) }
{
    next.unwrap_or_else(|| Ballot::vote(coin.toss(process, case, phase)))
}

// Sends the next ballot, if there is one. Answers how many messages these are.
fn send_next<C: Carrier>(line: &Line, carrier: &mut C, next: Option<Subject>, ballot: Ballot) -> u64
    requires sender { IfSome next (λ s. originator_of s < 16) }
    requires room { room_for_ballot line.now next (C.capacity carrier.old) (C.waiting carrier.old) ≡ true }
    ensures sent { Sent C.waiting C.capacity C.posting carrier.old (sent_for line.now next ballot) carrier.new }
    ensures count { result ≡ length (sent_for line.now next ballot) }
{
    match next {
        Some(subject) => send_initials(line, carrier, subject, ballot.number()),
        None => 0,
    }
}

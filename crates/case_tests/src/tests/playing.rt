// A case from its opening to its end.
use crate::tests::assert_same;
use carrier::Carrier;
use coin::Coin;
use item::Item;
use line::{advance, announce, deliver, forge, open_case, open_line};
use memory::{BroadcastRecord, CaseRecord, Decision, Memory, Stage};
use plan::{Draft, Line, Plan};
use protocol::{Message, Refusal, Side, Step, Subject};
use rules::{Advanced, Announced, Delivered};
use std::process::Abort;
use std::test::Fail;

// What a process votes. A faulty one does not.
pub(crate) const KEEP: Option<u64> = Some(0);

pub(crate) const RELEASE: Option<u64> = Some(1);

pub(crate) const FAULTY: Option<u64> = None;

// A message of process 0 in case 0, of some round and step, with a body for each process.
pub(crate) type Lie = (u64, Step, [u64; 4]);

// How many processes may be faulty, what each process votes, and the side that is decided, where it
// is sure.
#[derive(Clone, Copy)]
pub(crate) struct Row<'v> {
    pub(crate) t: u64,
    pub(crate) votes: &'v [Option<u64>],
    pub(crate) side: Option<Side>,
}

impl<'v> Row<'v> {
    pub(crate) fn new(t: u64, votes: &'v [Option<u64>], side: Option<Side>) -> Row<'v> {
        Row { t, votes, side }
    }
}

// The record of a subject for which this body was accepted: a ballot's number, or any other.
pub(crate) fn accepted(body: u64) -> BroadcastRecord {
    BroadcastRecord {
        stage: Stage::Accepted(body),
    }
}

// The line of a draft, opened over a memory and a carrier.
pub(crate) fn opened<C: Carrier>(
    draft: Draft,
    memory: &mut Memory,
    carrier: &C,
) -> Result<Line, Refusal> {
    open_line(draft, memory, carrier).map_err(|(refusal, _draft)| refusal)
}

// What the turns are handed, with the coin for the line's only case.
#[derive(Drop)]
pub(crate) struct Hall<'m, 'c, 'k, C, K> {
    pub(crate) line: Line,
    pub(crate) memory: Memory<'m>,
    pub(crate) carrier: &'c mut C,
    pub(crate) coin: &'k K,
}

impl<'m, 'c, 'k, C: Carrier, K: Coin> Hall<'m, 'c, 'k, C, K> {
    pub(crate) fn open_case(&mut self, process: u64, vote: u64) -> Result<u64, Refusal> {
        open_case(&self.line, &mut self.memory, self.carrier, process, 0, vote)
    }

    pub(crate) fn announce<I: Item>(
        &mut self,
        process: u64,
        value: &I,
    ) -> Result<Announced, Refusal> {
        announce(&self.line, &mut self.memory, self.carrier, process, value)
    }

    pub(crate) fn deliver(&mut self, process: u64, pick: u64) -> Result<Delivered, Refusal> {
        deliver(&self.line, &mut self.memory, self.carrier, process, pick)
    }

    pub(crate) fn advance(&mut self, process: u64) -> Result<Advanced, Refusal> {
        advance(
            &self.line,
            &mut self.memory,
            self.carrier,
            self.coin,
            process,
            0,
        )
    }

    fn vote_all(&mut self, votes: &[Option<u64>]) -> Result<(), Refusal> {
        for (process, vote) in (0..).zip(votes) {
            if let Some(vote) = *vote {
                let _ = self.open_case(process, vote)?;
            }
        }
        Ok(())
    }

    fn lie(&mut self, (round, step, bodies): Lie) -> Result<(), Refusal> {
        let subject = Subject::Ballot {
            originator: 0,
            case: 0,
            round,
        };
        for (addressee, body) in (0..).zip(bodies) {
            let message = Message::new(0, addressee, step, subject, body)?;
            let _ = forge(&self.line, &self.memory, self.carrier, message)?;
        }
        Ok(())
    }

    // Every correct process has ended the case of two phases, and no two decided differently. Where
    // a decision is told, each decided so.
    pub(crate) fn check_end(&self, rt: &impl Abort, told: Option<Decision>) {
        let mut last: Option<Side> = None;
        for process in 0..self.line.plan().n() {
            if !self.line.is_faulty(process) {
                let record = self.memory.case_record(process as usize);
                assert_same(rt, record.round, 7);
                assert_same(rt, record.decision, told.or(record.decision));
                if let Some(Decision { side, .. }) = record.decision {
                    assert_same(rt, side, last.unwrap_or(side));
                    last = Some(side);
                }
            }
        }
    }
}

fn draft(t: u64, votes: &[Option<u64>]) -> Result<Draft, Refusal> {
    let mut draft = Draft::new(Plan::new(votes.len() as u64, t, 0, 1, 2)?);
    for (process, vote) in (0..).zip(votes) {
        if vote.is_none() {
            draft.mark_faulty(process)?;
        }
    }
    Ok(draft)
}

// A case of two phases, which `run` takes to its end. A side that is told is decided in phase 1.
pub(crate) fn play<C, K, F>(
    rt: &impl Abort,
    carrier: &mut C,
    coin: &K,
    row: Row,
    lies: &[Lie],
    run: F,
) -> Result<(), Fail>
where
    C: Carrier,
    K: Coin,
    F: FnOnce(&mut Hall<C, K>) -> Result<(), Fail>,
    requires { F.IsAlwaysCallable run }
{
    let Row { t, votes, side } = row;
    let mut memory = Memory {
        broadcasts: &mut [BroadcastRecord::SILENT; 294],
        bodies: &mut [None; 4116],
        cases: &mut [CaseRecord::UNOPENED; 7],
        serials: &mut [0; 7],
    };
    let mut hall = Hall {
        line: opened(draft(t, votes)?, &mut memory, carrier)?,
        memory,
        carrier,
        coin,
    };
    for lie in lies {
        hall.lie(*lie)?;
    }
    hall.vote_all(votes)?;
    run(&mut hall)?;
    hall.check_end(rt, side.map(|side| Decision { side, phase: 1 }));
    Ok(())
}

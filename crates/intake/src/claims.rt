// A case about the item, from its opening to its end.
use crate::story::{ALL, FAULTY, OLDEST, SECOND_OLDEST, Story};
use crate::words::InWords;
use anyhow::Context;
use carrier::Carrier;
use coin::WordCoin;
use line::{advance, open_case};
use memory::case_place;
use protocol::{Ballot, Refusal, Step, Subject};

pub(crate) const CASE: u64 = 0;

// The coin shows release in the first phase and keep in the second.
const SIDES: u64 = 1;

// Who votes what.
const VOTES: [(u64, Ballot); 3] = [
    (0, Ballot::Release),
    (1, Ballot::Keep),
    (2, Ballot::Release),
];

// What the faulty process says to whom, in which round and with which ballot. In the first round it
// tells two votes and helps one of them on, in the third it does so with two proposals.
const LIES: [(u64, Step, u64, Ballot); 15] = [
    (0, Step::Initial, 1, Ballot::Keep),
    (1, Step::Initial, 1, Ballot::Keep),
    (2, Step::Initial, 1, Ballot::Release),
    (0, Step::Echo, 1, Ballot::Keep),
    (1, Step::Echo, 1, Ballot::Keep),
    (2, Step::Echo, 1, Ballot::Keep),
    (0, Step::Initial, 2, Ballot::Release),
    (1, Step::Initial, 2, Ballot::Release),
    (2, Step::Initial, 2, Ballot::Release),
    (0, Step::Initial, 3, Ballot::ProposeRelease),
    (1, Step::Initial, 3, Ballot::ProposeRelease),
    (2, Step::Initial, 3, Ballot::ProposeKeep),
    (0, Step::Echo, 3, Ballot::ProposeRelease),
    (1, Step::Echo, 3, Ballot::ProposeRelease),
    (2, Step::Echo, 3, Ballot::ProposeRelease),
];

// Who is served first, which message is picked each time and how many at most, so that the counters
// come to different ballots. Then all are served in turn.
const VISITS: [(u64, u64, u64); 9] = [
    (2, OLDEST, ALL),
    (1, OLDEST, ALL),
    (0, OLDEST, ALL),
    (2, OLDEST, ALL),
    (1, OLDEST, ALL),
    (2, OLDEST, ALL),
    (2, OLDEST, ALL),
    (0, SECOND_OLDEST, 16),
    (1, OLDEST, ALL),
];

impl<'a, R: Print, C: Carrier> Story<'a, R, C> {
    pub(crate) fn settle(&mut self) -> anyhow::Result<()> {
        println!(self.rt; "the counters open a case about the violin")?;
        self.open_all()?;
        self.lie()?;
        self.visit_all()
    }

    fn open_all(&mut self) -> anyhow::Result<()> {
        for (process, ballot) in VOTES {
            let sent = open_case(
                &self.line,
                &mut self.memory,
                &mut self.carrier,
                process,
                CASE,
                ballot.number(),
            )?;
            let name = InWords(ballot);
            println!(self.rt; "counter {process} opens case {CASE} with {name}, sends {sent}")?;
        }
        Ok(())
    }

    fn lie(&mut self) -> anyhow::Result<()> {
        for (addressee, step, round, ballot) in LIES {
            let subject = Subject::Ballot {
                originator: FAULTY,
                case: CASE,
                round,
            };
            self.forge(addressee, step, subject, ballot.number())?;
            let what = InWords(step);
            let about = InWords(subject);
            let name = InWords(ballot);
            println!(self.rt;
                "counter {FAULTY} forges {what} to counter {addressee} about {about}: {name}"
            )?;
        }
        Ok(())
    }

    fn visit_all(&mut self) -> anyhow::Result<()> {
        for (process, pick, most) in VISITS {
            self.visit(process, pick, most)?;
        }
        for _ in 0..11 {
            for process in 0..FAULTY {
                self.visit(process, OLDEST, ALL)?;
            }
        }
        Ok(())
    }

    // Delivers to the process, and then lets it advance.
    fn visit(&mut self, process: u64, pick: u64, most: u64) -> anyhow::Result<()> {
        let taken = self.hand_over(process, most, |_| pick)?;
        println!(self.rt; "counter {process} takes letters: {taken}")?;
        self.go_on(process)
    }

    // Advances as often as the process may.
    fn go_on(&mut self, process: u64) -> anyhow::Result<()> {
        let coin = WordCoin::new(SIDES);
        for _ in 0..6 {
            match advance(
                &self.line,
                &mut self.memory,
                &mut self.carrier,
                &coin,
                process,
                CASE,
            ) {
                Ok(advanced) => {
                    let round = advanced.round;
                    let sent = advanced.posted;
                    println!(self.rt; "counter {process} advances to round {round}, sends {sent}")?;
                }
                Err(Refusal::MayNotAdvance) => return Ok(()),
                Err(refusal) => return Err(refusal.into()),
            }
        }
        Ok(())
    }

    pub(crate) fn tell_decisions(&self) -> anyhow::Result<()> {
        for process in 0..FAULTY {
            let place = case_place(&self.line.plan(), process, CASE);
            let at = place.context("the plan has no such case")?;
            let what = InWords(self.memory.case_record(at).decision);
            println!(self.rt; "counter {process} decided {what}")?;
        }
        Ok(())
    }
}

// Who tells the story, in which order, and what its parts share.
use crate::words::{Content, InWords};
use anyhow::Context;
use carrier::Carrier;
use carriers::Watch;
use line::{deliver, forge, open_line};
use memory::Memory;
use plan::{Draft, Line, Plan};
use protocol::{Message, Refusal, Step, Subject};
use rules::Delivered;

pub(crate) const FAULTY: u64 = 3;

// More messages than any process gets.
pub(crate) const ALL: u64 = 64;

// Which of the messages for a process is taken. The second oldest is the oldest where it is alone.
pub(crate) const OLDEST: u64 = 0;

pub(crate) const SECOND_OLDEST: u64 = 1;

// What each turn is handed, and the runtime, to which each writes a line.
#[derive(Drop)]
pub(crate) struct Story<'a, R, C> {
    pub(crate) rt: &'a R,
    pub(crate) line: Line,
    pub(crate) memory: Memory<'a>,
    pub(crate) carrier: Watch<C>,
}

pub(crate) fn open_four<C: Carrier>(memory: &mut Memory, carrier: &C) -> Result<Line, Refusal> {
    let mut draft = Draft::new(Plan::new(4, 1, 2, 1, 2)?);
    draft.mark_faulty(FAULTY)?;
    open_line(draft, memory, carrier).map_err(|(refusal, _draft)| refusal)
}

impl<'a, R: Print, C: Carrier> Story<'a, R, C> {
    pub(crate) fn tell(&mut self) -> anyhow::Result<()> {
        println!(self.rt; "four counters, one of them strange: counter {FAULTY}")?;
        self.spread()?;
        self.count_waiting()?;
        self.read_all()?;
        self.settle()?;
        self.count_waiting()?;
        self.tell_decisions()?;
        self.release()
    }

    fn count_waiting(&self) -> anyhow::Result<()> {
        for process in 0..4 {
            let waiting = self.carrier.waiting_for(process);
            println!(self.rt; "{waiting} letters wait for counter {process}")?;
        }
        Ok(())
    }

    // The faulty process sends a message.
    pub(crate) fn forge(
        &mut self,
        addressee: u64,
        step: Step,
        subject: Subject,
        body: u64,
    ) -> Result<(), Refusal> {
        let message = Message::new(FAULTY, addressee, step, subject, body)?;
        forge(&self.line, &self.memory, &mut self.carrier, message).map(|_| ())
    }

    // Delivers to the process until nothing waits for it, but no more than `most` messages, and
    // tells of each. Which one is picked goes by how many wait. Answers how many there were.
    pub(crate) fn hand_over<P: Fn(u32) -> u64>(
        &mut self,
        process: u64,
        most: u64,
        pick: P,
    ) -> anyhow::Result<u64>
        requires { P.IsAlwaysCallable pick }
    {
        for taken in 0..most {
            let waiting = self.carrier.waiting_for(process);
            if waiting == 0 {
                return Ok(taken);
            }
            let pick = pick(waiting);
            let delivered = deliver(
                &self.line,
                &mut self.memory,
                &mut self.carrier,
                process,
                pick,
            )?;
            self.tell_delivered(process, delivered)?;
        }
        Ok(most)
    }

    // Of the message that was taken last.
    fn tell_delivered(&self, process: u64, delivered: Delivered) -> anyhow::Result<()> {
        let message = self.carrier.last().context("no message was taken")?;
        let sender = message.sender();
        let what = InWords(message.step());
        let about = InWords(message.subject());
        let value = InWords(Content::of(&message)?);
        let sent = delivered.posted;
        let entered = if delivered.accepted { "it" } else { "nothing" };
        println!(self.rt;
            "counter {process} takes {what} from counter {sender} about {about}, {value}: sends {sent}, enters {entered}"
        )?;
        Ok(())
    }
}

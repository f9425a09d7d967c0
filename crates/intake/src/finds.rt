// Items, from their announcement to what each counter reads of them.
use crate::story::{ALL, FAULTY, SECOND_OLDEST, Story};
use crate::words::InWords;
use carrier::Carrier;
use item::{Item, Record};
use line::announce;
use protocol::{Refusal, Step, Subject};
use reading::read;

// What the faulty process says to whom, of which item and with which shelf: originator and serial
// are the third and the fourth number. Of its own first item it tells two stories and helps one of
// them on, of its second it tells three.
const FORGED: [(u64, Step, u64, u64, u64); 13] = [
    (0, Step::Echo, 0, 0, 14),
    (1, Step::Echo, 0, 0, 41),
    (1, Step::Ready, 0, 0, 41),
    (2, Step::Echo, 0, 0, 41),
    (2, Step::Ready, 0, 0, 41),
    (0, Step::Initial, 3, 0, 50),
    (1, Step::Initial, 3, 0, 50),
    (2, Step::Initial, 3, 0, 60),
    (0, Step::Echo, 3, 0, 50),
    (1, Step::Ready, 3, 0, 50),
    (0, Step::Initial, 3, 1, 71),
    (1, Step::Initial, 3, 1, 72),
    (2, Step::Initial, 3, 1, 73),
];

const ITEMS: [(u64, u64); 3] = [(0, 0), (3, 0), (3, 1)];

fn violin(shelf: u64) -> Result<Record, Refusal> {
    Record::new(7, 2, 311, 9770, shelf)
}

impl<'a, R: Print, C: Carrier> Story<'a, R, C> {
    pub(crate) fn spread(&mut self) -> anyhow::Result<()> {
        self.announce_record(0, violin(14)?)?;
        self.forge_all()?;
        self.deliver_all()
    }

    fn announce_record(&mut self, process: u64, record: Record) -> anyhow::Result<()> {
        let announced = announce(
            &self.line,
            &mut self.memory,
            &mut self.carrier,
            process,
            &record,
        )?;
        let serial = announced.serial;
        let sent = announced.posted;
        let what = InWords(record);
        println!(self.rt;
            "counter {process} announces item {process} {serial}, sends {sent}: {what}"
        )?;
        Ok(())
    }

    fn forge_all(&mut self) -> anyhow::Result<()> {
        for (addressee, step, originator, serial, shelf) in FORGED {
            let subject = Subject::Item { originator, serial };
            self.forge(addressee, step, subject, violin(shelf)?.pack())?;
            let what = InWords(step);
            let about = InWords(subject);
            println!(self.rt;
                "counter {FAULTY} forges {what} to counter {addressee} about {about}, shelf {shelf}"
            )?;
        }
        Ok(())
    }

    fn deliver_all(&mut self) -> anyhow::Result<()> {
        println!(self.rt; "strange letters come first")?;
        for process in [1, 2] {
            self.hand_over(process, 2, |_| SECOND_OLDEST)?;
        }
        println!(self.rt; "counter 2 has to wait, the others get their oldest letter last")?;
        for process in [1, 0, 1, 0] {
            self.hand_over(process, ALL, |_| SECOND_OLDEST)?;
        }
        println!(self.rt; "counter 2 gets its newest letters first")?;
        self.hand_over(2, ALL, |waiting| u64::from(waiting).saturating_sub(1))?;
        println!(self.rt; "all get what is left")?;
        for process in [1, 0, 2] {
            self.hand_over(process, ALL, |_| SECOND_OLDEST)?;
        }
        Ok(())
    }

    pub(crate) fn read_all(&self) -> anyhow::Result<()> {
        for (originator, serial) in ITEMS {
            for process in 0..FAULTY {
                self.read_record(process, Subject::Item { originator, serial })?;
            }
        }
        Ok(())
    }

    fn read_record(&self, process: u64, subject: Subject) -> anyhow::Result<()> {
        let about = InWords(subject);
        let reading = read::<Record>(&self.line, &self.memory, process, subject)?;
        let what = InWords(reading);
        println!(self.rt; "counter {process} reads {about}: {what}")?;
        Ok(())
    }
}

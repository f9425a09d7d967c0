// Lines that are run until they rest.
use crate::tests::playing::Hall;
use carrier::Carrier;
use coin::Coin;
use protocol::Refusal;
use std::test::Fail;

// More than any run here takes.
const PASSES: u32 = 10_000;

// Repeats the pass until it finds nothing to do.
fn repeat<F: FnMut() -> Result<bool, Fail>>(mut pass: F) -> Result<(), Fail>
    requires { F.IsAlwaysCallable pass }
{
    for _ in 0..PASSES {
        if !pass()? {
            return Ok(());
        }
    }
    Err(Fail::new("turns without end"))
}

impl<'m, 'c, 'k, C: Carrier, K: Coin> Hall<'m, 'c, 'k, C, K> {
    // Delivers to each process what waits for it, but not more than `most`. Answers whether there
    // was anything.
    fn deliver_some(&mut self, most: u32) -> Result<bool, Refusal> {
        let mut any = false;
        for process in 0..self.line.plan().n() {
            for pick in 0..self.carrier.waiting_for(process).min(most) {
                let _ = self.deliver(process, u64::from(pick))?;
                any = true;
            }
        }
        Ok(any)
    }

    pub(crate) fn deliver_all(&mut self) -> Result<(), Fail> {
        repeat(|| Ok(self.deliver_some(u32::MAX)?))
    }

    // Each correct process that may advances. Answers whether one did.
    fn advance_all(&mut self) -> Result<bool, Refusal> {
        let mut any = false;
        for process in 0..self.line.plan().n() {
            match self.advance(process) {
                Ok(_) => any = true,
                Err(Refusal::MayNotAdvance | Refusal::WrongRole) => {}
                Err(refusal) => return Err(refusal),
            }
        }
        Ok(any)
    }

    // Everything is delivered before anybody advances.
    pub(crate) fn settle(&mut self) -> Result<(), Fail> {
        repeat(|| {
            self.deliver_all()?;
            Ok(self.advance_all()?)
        })
    }

    // Each process is delivered one message, and then those advance that may.
    pub(crate) fn hurry(&mut self) -> Result<(), Fail> {
        repeat(|| {
            let delivered = self.deliver_some(1)?;
            let advanced = self.advance_all()?;
            Ok(delivered || advanced)
        })
    }
}

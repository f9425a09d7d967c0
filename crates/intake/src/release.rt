// The item is handed over for a slip, and there is no second one.
use crate::claims::CASE;
use crate::story::Story;
use carrier::Carrier;
use slips::{hand_over, issue};

// Who hands the item over.
const CLERK: u64 = 0;

impl<'a, R: Print, C: Carrier> Story<'a, R, C> {
    pub(crate) fn release(&mut self) -> anyhow::Result<()> {
        let slip = issue(&self.line, &mut self.memory, CLERK, CASE)?;
        let (slip, process, case) = slip.stub();
        hand_over(&self.line, &mut self.memory, slip).unwrap();
        println!(self.rt; "counter {process} issues a slip in case {case}")?;
        println!(self.rt; "counter {process} hands the item over for it")?;
        let refusal = issue(&self.line, &mut self.memory, CLERK, CASE).unwrap_err();
        println!(self.rt; "counter {process} may issue no other: {refusal}")?;
        Ok(())
    }
}

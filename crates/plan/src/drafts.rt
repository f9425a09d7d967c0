// A plan with its faulty processes: while they are being marked, and from the opening on.
ghost use Rattle.std.specs.Prelude.{◌≡◌, ◌^◌, ◌<◌, ◌≤◌, true, count_ones};

use crate::plans::Plan;
use protocol::{PROCESSES, Refusal};
use std::marker::PhantomData;

pub mod lines;

/// A plan whose faulty processes are marked, at most t of them. All others are correct. The state,
/// `Drafted` or `InUse`, says whether more can be marked.
#[derive(Drop)]
pub struct Marked<S> {
    plan: Plan,
    marks: u16,
    state: PhantomData<S>,
    ghost few: { count_ones marks ≤ plan.t },
    ghost inside: { marks < 2 ^ plan.n },
}

/// The state before the opening.
#[derive(Drop)]
pub struct Drafted;

/// The state from the opening on.
#[derive(Drop)]
pub struct InUse;

/// Where processes can still be marked. Opening uses the draft up.
pub type Draft = Marked<Drafted>;

/// What opening makes of a draft: the same plan and marks, which stay as they are.
pub type Line = Marked<InUse>;

impl<S> Marked<S> {
    ghost use Rattle.plan.specs.Marks.{marked};

    /// The plan that it was made for.
    pub fn plan(&self) -> Plan
        ensures { result ≡ self.now.plan }
    {
        self.plan
    }

    /// Whether the process is marked. One outside the plan is not.
    pub fn is_faulty(&self, process: u64) -> bool
        ensures value { result ≡ marked self.now.marks process }
        ensures within { result ≡ true → process < self.now.plan.n }
    {
        process < PROCESSES && (self.marks >> process) & 1 == 1
    }
}

impl Marked<Drafted> {
    ghost use Rattle.plan.specs.Marks.{mark_answer, marks_after, Adds};

    /// A draft with no marks.
    pub fn new(plan: Plan) -> Draft
        ensures same { result.plan ≡ plan }
        ensures none { result.marks ≡ 0 }
    {
        Marked {
            plan,
            marks: 0,
            state: PhantomData,
        }
    }

    /// Marks one process more. Refused if there is no such process (4), and if it is marked
    /// already or t marks stand (5).
    pub fn mark_faulty(&mut self, process: u64) -> Result<(), Refusal>
        ensures answer { result ≡ mark_answer self.old.plan self.old.marks process }
        ensures same { self.new.plan ≡ self.old.plan }
        ensures after { self.new.marks ≡ marks_after self.old.plan self.old.marks process }
        ensures adds { Adds result self.old.marks process self.new.marks }
    {
        if process >= self.plan.n() {
            return Err(Refusal::ProcessOutOfRange);
        }
        if self.is_faulty(process) || u64::from(self.marks.count_ones()) >= self.plan.t() {
            return Err(Refusal::MarkRefused);
        }
        self.marks |= 1 << process;
        Ok(())
    }
}

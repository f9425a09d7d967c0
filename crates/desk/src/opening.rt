// Opening a line by its form.
ghost use Rattle.std.specs.Prelude.{◌≡◌, IfOk};
ghost use Rattle.memory.specs.Contents.{held};
ghost use Rattle.desk.specs.Desk.{waiting_in, marking, drafted, line_made as opened, opens_by};

use carriers::Basket;
use form::{Form, Marks};
use line::open_line;
use memory::Memory;
use plan::{Draft, Line, Plan};
use protocol::Refusal;

const SERIALS: u64 = 2;

const CASES: u64 = 1;

const PHASES: u64 = 3;

// A draft of the plan with these processes marked, one after another as written.
fn draft_marked(plan: Plan, marks: &Marks) -> Result<Draft, Refusal>
    ensures plan { IfOk result (λ d. d.plan ≡ plan) }
    ensures marks { drafted result ≡ marking plan 0 marks.now }
{
    let mut draft = Draft::new(plan);
    for mark in marks.as_slice() {
        draft.mark_faulty(*mark)?;
    }
    Ok(draft)
}

// Makes the plan of a form for a line, marks its processes and opens the line. Another form is out
// of place.
pub(crate) fn open(memory: &mut Memory, basket: &Basket, form: Form) -> Result<Line, Refusal>
    ensures { opened result (held memory.new) ≡ opens_by (held memory.old) (waiting_in basket.now) form }
{
    let Form::Line(wanted) = form else {
        return Err(Refusal::LineOutOfPlace);
    };
    let plan = Plan::new(wanted.counters, wanted.tolerate, SERIALS, CASES, PHASES)?;
    let draft = draft_marked(plan, &wanted.strange)?;
    open_line(draft, memory, basket).map_err(|(refusal, _)| refusal)
}

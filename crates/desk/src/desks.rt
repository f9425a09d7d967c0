// A desk, and acting on a form at it.
ghost use Rattle.std.specs.Prelude.{◌≡◌};

use crate::acting::act_on;
use crate::said::Said;
use carriers::Basket;
use form::Form;
use memory::Memory;
use plan::Line;
use protocol::Refusal;

/// What the forms of a script act on.
#[derive(Drop)]
pub struct Desk<'a> {
    /// The line, once one is open.
    pub line: Option<Line>,
    /// The memory that it is opened over.
    pub memory: Memory<'a>,
    /// The carrier of its messages.
    pub basket: Basket<'a>,
}

impl Desk<'_> {
    ghost use Rattle.desk.specs.Desk.{state, places, desk_after, acts};
    ghost use Rattle.desk.specs.Telling.{Tells};

    /// Acts on a form: a `line` form opens a line, any other makes its turn on the line that is
    /// open. The coin of all turns always shows keep.
    ///
    /// Refused, in this order, and then nothing at the desk changes: a turn while no line is open,
    /// or a `line` form while one is (16); what the form makes, its plan (1) and marks (4, 5), its
    /// tag (9) or its message (4); and what the call refuses that the form asks for.
    pub fn act_on(&mut self, form: Form) -> Result<Said, Refusal>
        ensures step { desk_after result (state self.new) ≡ acts (places self.old) (state self.old) form }
        ensures law { Tells (places self.old) (state self.old) form result (state self.new) }
        ensures kept { places self.new ≡ places self.old }
    {
        act_on(&mut self.line, &mut self.memory, &mut self.basket, form)
    }
}

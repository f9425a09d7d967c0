// Acting on a form, at the parts of a desk.
ghost use Rattle.std.specs.Prelude.{◌≡◌};
ghost use Rattle.memory.specs.Contents.{held};
ghost use Rattle.desk.specs.Desk.{waiting_in, places_of, desk, desk_after, acts};
ghost use Rattle.desk.specs.Telling.{Tells};

use crate::opening::open;
use crate::said::Said;
use crate::turning::turn_of;
use carriers::Basket;
use coin::WordCoin;
use form::Form;
use memory::Memory;
use plan::Line;
use protocol::Refusal;
use runs::perform;

/// Acts on a form as `Desk::act_on` does, for a caller that keeps the parts of the desk apart or
/// was lent them.
///
/// Refused, in this order, and then none of the three changes: a turn while no line is open, or a
/// `line` form while one is (16); what the form makes, its plan (1) and marks (4, 5), its tag (9)
/// or its message (4); and what the call refuses that the form asks for.
pub fn act_on(
    line: &mut Option<Line>,
    memory: &mut Memory,
    basket: &mut Basket,
    form: Form,
) -> Result<Said, Refusal>
    ensures step { desk_after result (desk line.new (held memory.new) (waiting_in basket.new)) ≡ acts (places_of basket.old) (desk line.old (held memory.old) (waiting_in basket.old)) form }
    ensures law { Tells (places_of basket.old) (desk line.old (held memory.old) (waiting_in basket.old)) form result (desk line.new (held memory.new) (waiting_in basket.new)) }
    ensures kept { places_of basket.new ≡ places_of basket.old }
{
    match &*line {
        None => {
            let opened = open(memory, basket, form)?;
            *line = Some(opened);
            Ok(Said::Opened)
        }
        Some(line) => {
            let turn = turn_of(form)?;
            let answer = perform(line, memory, basket, &WordCoin::new(0), &turn)?;
            Ok(Said::Did(answer))
        }
    }
}

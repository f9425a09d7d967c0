// The turn that a form asks for.
ghost use Rattle.std.specs.Prelude.{◌≡◌};
ghost use Rattle.desk.specs.Desk.{asks, asking};

use form::{ForgeForm, Form};
use item::Tag;
use protocol::{Message, Refusal};
use runs::Turn;

// The turn that a form asks for where a line is open. To open a second one is out of place.
pub(crate) fn turn_of(form: Form) -> Result<Turn<Tag>, Refusal>
    ensures { asking result ≡ asks form }
{
    match form {
        Form::Line(_) => Err(Refusal::LineOutOfPlace),
        Form::Announce { counter, tag } => Tag::new(tag).map(|value| Turn::Announce {
            process: counter,
            value,
        }),
        Form::Open {
            counter,
            case,
            vote,
        } => Ok(Turn::Open {
            process: counter,
            case,
            vote,
        }),
        Form::Forge(
            ForgeForm {
                from,
                to,
                step,
                subject,
                body,
            },
        ) => Message::new(from, to, step, subject, body).map(|message| Turn::Forge { message }),
        Form::Deliver { counter, pick } => Ok(Turn::Deliver {
            process: counter,
            pick,
        }),
        Form::Advance { counter, case } => Ok(Turn::Advance {
            process: counter,
            case,
        }),
    }
}

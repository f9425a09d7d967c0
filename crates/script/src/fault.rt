ghost use Rattle.std.specs.Prelude.{◌≡◌};
ghost use Rattle.script.specs.Lint.{fault_text, form_fault_text, placed, refusal_of, refusal_text};
ghost use Rattle.script.specs.declared.fault.ScriptFault.TheVariants as fault;
ghost use Rattle.text.specs.Shown.{Appends};

use grammar::FormFault;
use protocol::Refusal;
use text::{NoMemory, Text};
use token::Position;

/// Why a script, or a line of it, gets no other answer.
#[derive(Clone, Copy, Debug, PartialEq, Eq)]
pub enum ScriptFault {
    /// The line is no form: what is wrong with it, and where.
    Form(FormFault),
    /// What the line asks for, or the whole script, is refused.
    Refused(Refusal),
}

impl From<FormFault> for ScriptFault {
    ghost from_gives = { λ e r. r ≡ fault.Form e };

    fn from(fault: FormFault) -> ScriptFault {
        ScriptFault::Form(fault)
    }
}

impl From<Refusal> for ScriptFault {
    ghost from_gives = { λ e r. r ≡ fault.Refused e };

    fn from(why: Refusal) -> ScriptFault {
        ScriptFault::Refused(why)
    }
}

impl From<ScriptFault> for Refusal {
    ghost from_gives = { λ e r. r ≡ refusal_of e };

    fn from(fault: ScriptFault) -> Refusal {
        match fault {
            ScriptFault::Form(_) => Refusal::NotRead,
            ScriptFault::Refused(refusal) => refusal,
        }
    }
}

fn put_place(text: Text, layer: &[u8], place: Position) -> Result<Text, NoMemory>
    ensures { Appends result text (placed layer.now place) }
{
    let text = text.put(b"(fault (layer ")?.put(layer)?;
    text.put_field(b") (line ", place.line)?
        .put_field(b") (byte ", place.byte)?
        .put(b"))")
}

fn put_refusal(text: Text, refusal: Refusal) -> Result<Text, NoMemory>
    ensures { Appends result text (refusal_text refusal) }
{
    text.put_field(b"(refused ", u64::from(refusal.number()))?
        .put(b")")
}

fn put_form_fault(text: Text, fault: FormFault) -> Result<Text, NoMemory>
    ensures { Appends result text (form_fault_text fault) }
{
    match fault {
        FormFault::Token(fault) => put_place(text, b"token", fault.place),
        FormFault::Unexpected(place) => put_place(text, b"form", place),
    }
}

impl ScriptFault {
    /// Adds the fault's text to a text, without a line break. It fails only as `Text::put` does.
    pub fn write_to(self, text: Text) -> Result<Text, NoMemory>
        ensures { Appends result text (fault_text self) }
    {
        match self {
            ScriptFault::Form(fault) => put_form_fault(text, fault),
            ScriptFault::Refused(refusal) => put_refusal(text, refusal),
        }
    }
}

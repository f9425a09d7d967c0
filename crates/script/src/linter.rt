ghost use Rattle.std.specs.Prelude.{◌≡◌, IfOk, refl};
ghost use Rattle.form.specs.Format.{written};
ghost use Rattle.script.specs.Lint.{checked, sized, written_back, linted};
ghost use Rattle.text.specs.Shown.{shown};

use crate::fault::ScriptFault;
use crate::responder::{Responder, answer};
use crate::split::ScriptLine;
use form::Form;
use protocol::Refusal;
use reader::read;
use std::alloc::Global;
use text::{NoMemory, Text};

/// The most bytes that a script may have, line breaks included.
pub const LIMIT: usize = 4096;

/// The line's form, or its first fault.
pub fn check_line(line: ScriptLine<'_>) -> Result<Form, ScriptFault>
    ensures { result ≡ checked line.entry.number line.entry.text.now }
{
    Ok(read(line.number, line.text)?)
}

/// Refuses a script of more than `LIMIT` bytes, as `MemoryTooSmall`.
pub fn check_size(input: &[u8]) -> Result<(), ScriptFault>
    ensures { result ≡ sized input.now }
{
    if input.len() > LIMIT {
        return Err(ScriptFault::Refused(Refusal::MemoryTooSmall));
    }
    Ok(())
}

// Writes each line's form back.
#[derive(Drop)]
struct Linter;

impl Responder for Linter {
    type Answer = Form;

    ghost written = { written };

    ghost answers = { λ _. written_back };

    ghost none = { λ _ _. refl };

    fn respond(&mut self, line: ScriptLine<'_>) -> Result<Form, ScriptFault> {
        check_line(line)
    }

    fn write(form: Form, text: Text) -> Result<Text, NoMemory> {
        form.write_to(text)
    }
}

/// Checks a script line by line: each line gets its form written back, or its fault told. It fails
/// only where the heap gives no memory.
pub fn lint(heap: Global, input: &[u8]) -> Result<Text, NoMemory>
    ensures { IfOk result (λ t. shown t ≡ linted input.now) }
{
    answer(heap, input, Linter)
}

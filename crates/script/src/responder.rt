// What a script is answered, whoever answers its lines.
ghost use Rattle.std.specs.Prelude.{◌≡◌, ℕ, List, [], IfOk};
ghost use Rattle.script.specs.Lint.{told, lines, script_answered, Responds};
ghost use Rattle.text.specs.Shown.{shown, Appends};

use crate::fault::ScriptFault;
use crate::linter::check_size;
use crate::split::{Lines, ScriptLine};
use std::alloc::Global;
use text::{NoMemory, Text};

/// Answers the lines of a script, one after another. What a line is answered may depend on those
/// before it.
pub trait Responder {
    /// What a line that is not refused is answered.
    type Answer;

    // The text of an answer, without its line break.
    ghost written: { Self.Answer → List ℕ };

    // The answers to lines, of which the first has this number.
    ghost answers: { Self → ℕ → List (List ℕ) → List ℕ };

    /// Answers one line, or tells its fault or why it is refused.
    fn respond(&mut self, line: ScriptLine<'_>) -> Result<Self::Answer, ScriptFault>
        ensures { Responds written (answers self.old) (answers self.new) line.entry.number line.entry.text.now result };

    /// Adds an answer's text to a text. It fails only as `Text::put` does.
    fn write(answer: Self::Answer, text: Text) -> Result<Text, NoMemory>
        ensures { Appends result text (written answer) };

    // No lines have no answers.
    ghost none: { (x : Self) (n : ℕ) → answers x n [] ≡ [] };
}

// The answer, or the fault.
fn put_answer<R: Responder>(
    text: Text,
    answer: Result<R::Answer, ScriptFault>,
) -> Result<Text, NoMemory>
    ensures { Appends result text (told R.written answer) }
{
    match answer {
        Ok(answer) => R::write(answer, text),
        Err(fault) => fault.write_to(text),
    }
}

fn answer_lines<R: Responder>(
    mut text: Text,
    input: &[u8],
    responder: &mut R,
) -> Result<Text, NoMemory>
    ensures { Appends result text (R.answers responder.old 1 (lines input.now)) }
{
    for line in Lines::new(input) {
        text = put_answer::<R>(text, responder.respond(line))?.put(b"\n")?;
    }
    Ok(text)
}

/// Answers a whole script, each line by one of its own, or tells in one line that it has more than
/// `LIMIT` bytes. It uses the responder up, and fails only where the heap gives no memory.
pub fn answer<R: Responder + Drop>(
    heap: Global,
    input: &[u8],
    mut responder: R,
) -> Result<Text, NoMemory>
    ensures { IfOk result (λ t. shown t ≡ script_answered (R.answers responder) input.now) }
{
    let text = Text::new(heap);
    match check_size(input) {
        Ok(()) => answer_lines(text, input, &mut responder),
        Err(fault) => fault.write_to(text)?.put(b"\n"),
    }
}

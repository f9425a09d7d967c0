ghost use Rattle.std.specs.Prelude.{◌≡◌, ◌≤◌, length, IfOk, refl};
ghost use Rattle.text.specs.Shown.{shown, Appends};
ghost use Rattle.desk.specs.Desk.{state, places};
ghost use Rattle.desk.specs.Wording.{said_text};
ghost use Rattle.rehearse.specs.Rehearsed.{answers, rehearsed};
ghost use Rattle.rehearse.specs.Session.{Rehearsal};

use carriers::Basket;
use desk::{Desk, Said};
use memory::{BroadcastRecord, CaseRecord, Memory};
use protocol::Message;
use script::{Responder, ScriptFault, ScriptLine, answer, check_line};
use std::alloc::Global;
use text::{NoMemory, Text};

// Acts on each line's form, at one desk.
#[derive(Drop)]
struct Rehearser<'a> {
    desk: Desk<'a>,
}

impl Responder for Rehearser<'_> {
    type Answer = Said;

    ghost written = { said_text };

    ghost answers = { λ r. answers (places r.desk) (state r.desk) };

    ghost none = { λ _ _. refl };

    fn respond(&mut self, line: ScriptLine<'_>) -> Result<Said, ScriptFault> {
        let form = check_line(line)?;
        Ok(self.desk.act_on(form)?)
    }

    fn write(said: Said, text: Text) -> Result<Text, NoMemory>
        ensures { Appends result text (said_text said) }
    {
        said.write_to(text)
    }
}

/// Acts on a script line by line: each line gets the answer of its form, or its fault. The memory
/// is for five processes, and the basket, which is empty, has 400 places. From the form that opens
/// a line on, the answers are those of a run, and the promises hold behind each. A script of more
/// than 4,096 bytes is refused whole (2). It fails only where the heap gives no memory.
pub fn rehearse(heap: Global, input: &[u8]) -> Result<Text, NoMemory>
    ensures value { IfOk result (λ t. shown t ≡ rehearsed input.now) }
    ensures law { IfOk result (λ t. length input.now ≤ 4096 → Rehearsal input.now (shown t)) }
{
    let memory = Memory {
        broadcasts: &mut [BroadcastRecord::SILENT; 275],
        bodies: &mut [None; 2750],
        cases: &mut [CaseRecord::UNOPENED; 5],
        serials: &mut [0; 5],
    };
    let mut places = [Message::BLANK; 400];
    let desk = Desk {
        line: None,
        memory,
        basket: Basket::new(&mut places),
    };
    answer(heap, input, Rehearser { desk })
}

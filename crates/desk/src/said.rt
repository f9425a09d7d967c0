// What a form that was acted on is answered, and how that is written.
ghost use Rattle.text.specs.Shown.{Appends};

use runs::Answer;
use text::{NoMemory, Text};

/// What a form that was acted on is answered.
#[derive(Clone, Copy, Debug, PartialEq, Eq)]
pub enum Said {
    /// The line was opened.
    Opened,
    /// The turn was made, and answered this.
    Did(Answer),
}

impl Said {
    ghost use Rattle.desk.specs.Wording.{answer_text, said_text};

    /// Adds the answer's text to a text, without a line break. It fails only as `Text::put` does.
    pub fn write_to(self, text: Text) -> Result<Text, NoMemory>
        ensures { Appends result text (said_text self) }
    {
        match self {
            Said::Opened => text.put(b"(opened)"),
            Said::Did(answer) => Said::put_answer(text, answer),
        }
    }

    fn put_answer(text: Text, answer: Answer) -> Result<Text, NoMemory>
        ensures { Appends result text (answer_text answer) }
    {
        match answer {
            Answer::Announced(announced) => text
                .put_field(b"(announced (serial ", announced.serial)?
                .put_field(b") (sent ", announced.posted)?
                .put(b"))"),
            Answer::Posted(posted) => text.put_field(b"(sent ", posted)?.put(b")"),
            Answer::Delivered(delivered) => text
                .put_field(b"(took (sent ", delivered.posted)?
                .put_field(b") (entered ", u64::from(delivered.accepted))?
                .put(b"))"),
            Answer::Advanced(advanced) => text
                .put_field(b"(advanced (round ", advanced.round)?
                .put_field(b") (sent ", advanced.posted)?
                .put(b"))"),
        }
    }
}

ghost use Rattle.form.specs.Format.{marks_written, stepped, subjected, lined, forge_written, written};
ghost use Rattle.text.specs.Shown.{Appends};

use crate::marks::Marks;
use protocol::{Step, Subject};
use text::{NoMemory, Text};

/// One form of a script, as written. Its numbers are any below 2^64: the call that it is turned
/// into refuses what is out of range.
#[derive(Clone, Copy, Debug, PartialEq, Eq)]
pub enum Form {
    /// A line is opened.
    Line(LineForm),
    /// Process `counter` announces the tag `tag`.
    Announce { counter: u64, tag: u64 },
    /// Process `counter` opens case `case` with a vote: 0 for keep, 1 for release.
    Open { counter: u64, case: u64, vote: u64 },
    /// A faulty process sends a message.
    Forge(ForgeForm),
    /// Process `counter` is delivered one message that waits for it, by the pick number `pick`.
    Deliver { counter: u64, pick: u64 },
    /// Process `counter` advances in case `case`.
    Advance { counter: u64, case: u64 },
}

/// How a line is opened.
#[derive(Clone, Copy, Debug, PartialEq, Eq)]
pub struct LineForm {
    /// n, the number of processes.
    pub counters: u64,
    /// t, how many of them may be faulty.
    pub tolerate: u64,
    /// The processes that are marked as faulty.
    pub strange: Marks,
}

/// The message that a faulty process sends.
#[derive(Clone, Copy, Debug, PartialEq, Eq)]
pub struct ForgeForm {
    /// The sender.
    pub from: u64,
    /// The addressee.
    pub to: u64,
    /// Which of the three steps of a broadcast it is.
    pub step: Step,
    /// What the broadcast is about.
    pub subject: Subject,
    /// The value that it carries, as a number.
    pub body: u64,
}

fn put_step(text: Text, step: Step) -> Result<Text, NoMemory>
    ensures { Appends result text (stepped step) }
{
    match step {
        Step::Initial => text.put(b"initial"),
        Step::Echo => text.put(b"echo"),
        Step::Ready => text.put(b"ready"),
    }
}

fn put_subject(text: Text, subject: Subject) -> Result<Text, NoMemory>
    ensures { Appends result text (subjected subject) }
{
    match subject {
        Subject::Item { originator, serial } => text
            .put_field(b"(item ", originator)?
            .put_field(b" ", serial)?
            .put(b")"),
        Subject::Ballot {
            originator,
            case,
            round,
        } => text
            .put_field(b"(ballot ", originator)?
            .put_field(b" ", case)?
            .put_field(b" ", round)?
            .put(b")"),
    }
}

fn put_marks(mut text: Text, marks: &Marks) -> Result<Text, NoMemory>
    ensures { Appends result text (marks_written marks.now) }
{
    for mark in marks.as_slice() {
        text = text.put_field(b" ", *mark)?;
    }
    Ok(text)
}

impl LineForm {
    fn write_to(&self, text: Text) -> Result<Text, NoMemory>
        ensures { Appends result text (lined self.now) }
    {
        let text = text
            .put_field(b"(line (counters ", self.counters)?
            .put_field(b") (tolerate ", self.tolerate)?
            .put(b") (strange")?;
        put_marks(text, &self.strange)?.put(b"))")
    }
}

impl ForgeForm {
    fn write_to(&self, text: Text) -> Result<Text, NoMemory>
        ensures { Appends result text (forge_written self.now) }
    {
        let text = text
            .put_field(b"(forge (from ", self.from)?
            .put_field(b") (to ", self.to)?
            .put(b") (")?;
        let text = put_step(text, self.step)?.put(b" ")?;
        put_subject(text, self.subject)?
            .put_field(b") (body ", self.body)?
            .put(b"))")
    }
}

impl Form {
    /// Adds the form's text to a text, without a line break. It fails only as `Text::put` does.
    pub fn write_to(&self, text: Text) -> Result<Text, NoMemory>
        ensures { Appends result text (written self.now) }
    {
        match self {
            Form::Line(line) => line.write_to(text),
            Form::Announce { counter, tag } => text
                .put_field(b"(announce (counter ", *counter)?
                .put_field(b") (tag ", *tag)?
                .put(b"))"),
            Form::Open {
                counter,
                case,
                vote,
            } => text
                .put_field(b"(open (counter ", *counter)?
                .put_field(b") (case ", *case)?
                .put_field(b") (vote ", *vote)?
                .put(b"))"),
            Form::Forge(forge) => forge.write_to(text),
            Form::Deliver { counter, pick } => text
                .put_field(b"(deliver (counter ", *counter)?
                .put_field(b") (pick ", *pick)?
                .put(b"))"),
            Form::Advance { counter, case } => text
                .put_field(b"(advance (counter ", *counter)?
                .put_field(b") (case ", *case)?
                .put(b"))"),
        }
    }
}

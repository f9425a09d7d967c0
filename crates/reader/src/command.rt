ghost use Rattle.std.specs.Prelude.{◌≡◌};
ghost use Rattle.grammar.specs.Grammar.{reading, announce, open_command, forge, deliver, advance, line, command, step, subject, item, ballot, mark, all_marks};
ghost use Rattle.grammar.specs.Exact.{Exact, Faults};
ghost use Rattle.grammar.specs.Reads.{Reads};

use form::{ForgeForm, Form, LineForm, Marks};
use grammar::{FormFault, Found, expect, finish, pull, read_arg, read_field, read_number};
use protocol::{Step, Subject};
use token::Cursor;

// Each of these reads the rest of its form, behind the word that names it.
fn read_announce(cursor: &mut Cursor<'_>) -> Result<Form, FormFault>
    ensures { Reads cursor.old cursor.new result announce }
{
    let counter = read_field(cursor, b"counter")?;
    let tag = read_field(cursor, b"tag")?;
    expect(cursor, b")")?;
    Ok(Form::Announce { counter, tag })
}

fn read_open(cursor: &mut Cursor<'_>) -> Result<Form, FormFault>
    ensures { Reads cursor.old cursor.new result open_command }
{
    let counter = read_field(cursor, b"counter")?;
    let case = read_field(cursor, b"case")?;
    let vote = read_field(cursor, b"vote")?;
    expect(cursor, b")")?;
    Ok(Form::Open {
        counter,
        case,
        vote,
    })
}

fn read_deliver(cursor: &mut Cursor<'_>) -> Result<Form, FormFault>
    ensures { Reads cursor.old cursor.new result deliver }
{
    let counter = read_field(cursor, b"counter")?;
    let pick = read_field(cursor, b"pick")?;
    expect(cursor, b")")?;
    Ok(Form::Deliver { counter, pick })
}

fn read_advance(cursor: &mut Cursor<'_>) -> Result<Form, FormFault>
    ensures { Reads cursor.old cursor.new result advance }
{
    let counter = read_field(cursor, b"counter")?;
    let case = read_field(cursor, b"case")?;
    expect(cursor, b")")?;
    Ok(Form::Advance { counter, case })
}

fn read_step(cursor: &mut Cursor<'_>) -> Result<Step, FormFault>
    ensures { Reads cursor.old cursor.new result step }
{
    let Found { token, place } = pull(cursor)?;
    match token.text() {
        b"initial" => Ok(Step::Initial),
        b"echo" => Ok(Step::Echo),
        b"ready" => Ok(Step::Ready),
        _ => Err(FormFault::Unexpected(place)),
    }
}

fn read_item(cursor: &mut Cursor<'_>) -> Result<Subject, FormFault>
    ensures { Reads cursor.old cursor.new result item }
{
    let originator = read_arg(cursor)?;
    let serial = read_arg(cursor)?;
    expect(cursor, b")")?;
    Ok(Subject::Item { originator, serial })
}

fn read_ballot(cursor: &mut Cursor<'_>) -> Result<Subject, FormFault>
    ensures { Reads cursor.old cursor.new result ballot }
{
    let originator = read_arg(cursor)?;
    let case = read_arg(cursor)?;
    let round = read_arg(cursor)?;
    expect(cursor, b")")?;
    Ok(Subject::Ballot {
        originator,
        case,
        round,
    })
}

fn read_subject(cursor: &mut Cursor<'_>) -> Result<Subject, FormFault>
    ensures { Reads cursor.old cursor.new result subject }
{
    expect(cursor, b" ")?;
    expect(cursor, b"(")?;
    let Found { token, place } = pull(cursor)?;
    match token.text() {
        b"item" => read_item(cursor),
        b"ballot" => read_ballot(cursor),
        _ => Err(FormFault::Unexpected(place)),
    }
}

fn read_forge(cursor: &mut Cursor<'_>) -> Result<Form, FormFault>
    ensures { Reads cursor.old cursor.new result forge }
{
    let from = read_field(cursor, b"from")?;
    let to = read_field(cursor, b"to")?;
    expect(cursor, b" ")?;
    expect(cursor, b"(")?;
    let step = read_step(cursor)?;
    let subject = read_subject(cursor)?;
    expect(cursor, b")")?;
    let body = read_field(cursor, b"body")?;
    expect(cursor, b")")?;
    Ok(Form::Forge(ForgeForm {
        from,
        to,
        step,
        subject,
        body,
    }))
}

// A space and one mark more, or the bracket behind the last.
fn next_mark(cursor: &mut Cursor<'_>) -> Result<Option<u64>, FormFault>
    ensures { Reads cursor.old cursor.new result mark }
{
    let Found { token, place } = pull(cursor)?;
    match token.text() {
        b")" => Ok(None),
        b" " => Ok(Some(read_number(cursor)?)),
        _ => Err(FormFault::Unexpected(place)),
    }
}

fn read_marks(cursor: &mut Cursor<'_>) -> Result<Marks, FormFault>
    ensures { Reads cursor.old cursor.new result all_marks }
{
    let mut marks = Marks::new();
    for _ in 0..Marks::MOST {
        let Some(mark) = next_mark(cursor)? else {
            return Ok(marks);
        };
        marks.push(mark).unwrap();
    }
    expect(cursor, b")")?;
    Ok(marks)
}

fn read_line(cursor: &mut Cursor<'_>) -> Result<Form, FormFault>
    ensures { Reads cursor.old cursor.new result line }
{
    let counters = read_field(cursor, b"counters")?;
    let tolerate = read_field(cursor, b"tolerate")?;
    expect(cursor, b" ")?;
    expect(cursor, b"(")?;
    expect(cursor, b"strange")?;
    let strange = read_marks(cursor)?;
    expect(cursor, b")")?;
    Ok(Form::Line(LineForm {
        counters,
        tolerate,
        strange,
    }))
}

fn read_command(cursor: &mut Cursor<'_>) -> Result<Form, FormFault>
    ensures { Reads cursor.old cursor.new result command }
{
    let Found { token, place } = pull(cursor)?;
    match token.text() {
        b"line" => read_line(cursor),
        b"announce" => read_announce(cursor),
        b"open" => read_open(cursor),
        b"forge" => read_forge(cursor),
        b"deliver" => read_deliver(cursor),
        b"advance" => read_advance(cursor),
        _ => Err(FormFault::Unexpected(place)),
    }
}

fn read_whole(number: u64, line: &[u8]) -> Result<Form, FormFault>
    ensures { result ≡ reading number line.now }
{
    let mut cursor = Cursor::new(number, line);
    expect(&mut cursor, b"(")?;
    let form = read_command(&mut cursor)?;
    finish(cursor, form)
}

/// Reads a line as the one form whose text it is. `number` is the line's in its script, from 1, and
/// `line` is without its line break. Otherwise the first fault is told: a token that is not lawful
/// (`Token`), or one that no form has there or a line that ends early (`Unexpected`).
pub fn read(number: u64, line: &[u8]) -> Result<Form, FormFault>
    ensures value { result ≡ reading number line.now }
    ensures exact { Exact line.now result }
    ensures faults { Faults number line.now result }
{
    read_whole(number, line)
}

ghost use Rattle.std.specs.Prelude.{◌≡◌};
ghost use Rattle.grammar.specs.Grammar.{Shape, word, number, arg, field};
ghost use Rattle.grammar.specs.Reads.{Pulled, Reads, Ends};

use crate::fault::FormFault;
use form::Form;
use token::{Cursor, Position, Token};

/// A token that was taken from a line.
#[derive(Clone, Copy, Debug, PartialEq, Eq)]
pub struct Found<'a> {
    /// The token.
    pub token: Token<'a>,
    /// Where its first byte stands.
    pub place: Position,
}

/// Takes the next token. A token that is not lawful is a fault and stays; the end of the line is a
/// fault too.
pub fn pull<'a>(cursor: &mut Cursor<'a>) -> Result<Found<'a>, FormFault>
    ensures { Pulled cursor.old cursor.new result }
{
    let place = cursor.place();
    let token = cursor.next_token()?.ok_or(FormFault::Unexpected(place))?;
    Ok(Found { token, place })
}

/// Ends a line behind a whole form, and gives this form back. It uses the cursor up. A token that
/// is left is a fault.
pub fn finish(mut cursor: Cursor<'_>, form: Form) -> Result<Form, FormFault>
    ensures { Ends cursor.entry form result }
{
    let place = cursor.place();
    if cursor.next_token()?.is_some() {
        return Err(FormFault::Unexpected(place));
    }
    Ok(form)
}

/// Takes a token of these bytes. Any other is a fault, and is taken if it is lawful.
pub fn expect(cursor: &mut Cursor<'_>, bytes: &[u8]) -> Result<(), FormFault>
    ensures { Reads cursor.old cursor.new result (word bytes.now) }
{
    let Found { token, place } = pull(cursor)?;
    if token.text() != bytes {
        return Err(FormFault::Unexpected(place));
    }
    Ok(())
}

/// Takes a number and gives its value. Any other token is a fault, and is taken if it is lawful.
pub fn read_number(cursor: &mut Cursor<'_>) -> Result<u64, FormFault>
    ensures { Reads cursor.old cursor.new result number }
{
    let Found { token, place } = pull(cursor)?;
    match token {
        Token::Number { value, .. } => Ok(value),
        _ => Err(FormFault::Unexpected(place)),
    }
}

/// Takes a space and a number, as ` 7`, and gives the number's value.
pub fn read_arg(cursor: &mut Cursor<'_>) -> Result<u64, FormFault>
    ensures { Reads cursor.old cursor.new result arg }
{
    expect(cursor, b" ")?;
    read_number(cursor)
}

/// Takes a space and a number in brackets with its name, as ` (pick 7)`, and gives its value.
pub fn read_field(cursor: &mut Cursor<'_>, name: &[u8]) -> Result<u64, FormFault>
    ensures { Reads cursor.old cursor.new result (field name.now) }
{
    expect(cursor, b" ")?;
    expect(cursor, b"(")?;
    expect(cursor, name)?;
    let value = read_arg(cursor)?;
    expect(cursor, b")")?;
    Ok(value)
}

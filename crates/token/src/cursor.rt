ghost use Rattle.std.specs.Prelude.{◌≡◌, ◌+◌, ◌^◌, ◌<◌, length};
ghost use Rattle.token.specs.Tokens.{pieces};

use crate::fault::{Position, TokenFault};
use crate::lex::{Token, first_token};

/// What is left of a script's line, and the place of its next token.
#[derive(Drop)]
pub struct Cursor<'a> {
    rest: &'a [u8],
    place: Position,
    ghost fits: { place.byte + length rest.now < 2 ^ 64 },
}

impl<'a> Cursor<'a> {
    ghost use Rattle.token.specs.Scan.{left, unread, here, bytes_on};
    ghost use Rattle.token.specs.Scan.{scanned, spelled, taken, remaining, Apt, Cuts};

    /// The beginning of a line, whose number in its script is `number`, counted from 1.
    pub fn new(number: u64, line: &'a [u8]) -> Cursor<'a>
        ensures place { here result ≡ record { line = number; byte = 1 } }
        ensures tokens { left result ≡ pieces line.now }
        ensures whole { unread result ≡ line.now }
    {
        Cursor {
            rest: line,
            place: Position {
                line: number,
                byte: 1,
            },
        }
    }

    /// The place of the next token's first byte, or one past the line's end.
    pub fn place(&self) -> Position
        ensures { result ≡ here self.now }
    {
        self.place
    }

    /// Takes the next token, and gives none at the line's end. The tokens given up to there, put
    /// together, are the line. A faulty token is not taken: each later call tells the same fault.
    pub fn next_token(&mut self) -> Result<Option<Token<'a>>, TokenFault>
        ensures value { spelled result ≡ scanned (here self.old) (left self.old) }
        ensures kind { Apt result }
        ensures place { here self.new ≡ bytes_on (here self.old) (taken result) }
        ensures tokens { left self.new ≡ remaining result (left self.old) }
        ensures whole { Cuts result (unread self.old) (unread self.new) }
    {
        if self.rest.is_empty() {
            return Ok(None);
        }
        let token = first_token(self.rest).ok_or(TokenFault { place: self.place })?;
        let taken = token.text().len();
        self.rest = &self.rest[taken..];
        self.place.byte += taken as u64;
        Ok(Some(token))
    }
}

ghost use Rattle.std.specs.Prelude.{◌≡◌};
ghost use Rattle.grammar.specs.declared.fault.FormFault.TheVariants.{Token};

use token::{Position, TokenFault};

/// Why a line is no form, told of its first token that does not fit. A token that is not lawful is
/// told as such.
#[derive(Clone, Copy, Debug, PartialEq, Eq)]
pub enum FormFault {
    /// A token that is not lawful, with the place of its first byte.
    Token(TokenFault),
    /// A lawful token that no form has here, by the place of its first byte; or, by the place one
    /// past the last byte, the end of the line where a form goes on.
    Unexpected(Position),
}

impl From<TokenFault> for FormFault {
    ghost from_gives = { λ e r. r ≡ Token e };

    fn from(fault: TokenFault) -> FormFault {
        FormFault::Token(fault)
    }
}

ghost use Rattle.std.specs.Prelude.{◌≡◌, length};
ghost use Rattle.std.specs.List.{take_while};
ghost use Rattle.token.specs.Tokens.{spelling, below64, with_digit, worth, number_of, joins, spanning, Lexed, First};

/// One token. A word and a number borrow their bytes from the line.
#[derive(Clone, Copy, Debug, PartialEq, Eq)]
pub enum Token<'a> {
    /// `(`, alone.
    Open,
    /// `)`, alone.
    Close,
    /// One byte 32. Two spaces are two tokens.
    Space,
    /// A longest run of `a` to `z`.
    Word(&'a [u8]),
    /// A longest run of digits without a leading zero, and the number below 2^64 that they write.
    Number { digits: &'a [u8], value: u64 },
}

impl<'a> Token<'a> {
    /// The token's bytes, as they stand in its line.
    pub fn text(self) -> &'a [u8]
        ensures { result.now ≡ spelling self.entry }
    {
        match self {
            Token::Open => b"(",
            Token::Close => b")",
            Token::Space => b" ",
            Token::Word(letters) => letters,
            Token::Number { digits, .. } => digits,
        }
    }
}

// Whether byte `b` goes on the token that byte `a` is in.
fn same_run(a: u8, b: u8) -> bool
    ensures { result ≡ joins a b }
{
    a.is_ascii_lowercase() && b.is_ascii_lowercase() || a.is_ascii_digit() && b.is_ascii_digit()
}

// How many bytes at the front go on the token that byte `b` is in.
fn run_length(b: u8, rest: &[u8]) -> usize
    ensures { result ≡ length (take_while (joins b) rest.now) }
{
    rest.iter().take_while(|c| same_run(b, **c)).count()
}

// How many bytes the first token has.
fn span(rest: &[u8]) -> usize
    ensures { result ≡ spanning rest.now }
{
    match rest {
        [] => 0,
        [first, others @ ..] => 1 + run_length(*first, others),
    }
}

// A number with one digit more, if that is below 2^64.
fn push_digit(n: u64, digit: u8) -> Option<u64>
    ensures { result ≡ below64 (with_digit n digit) }
{
    n.checked_mul(10)?
        .checked_add(u64::from(digit.saturating_sub(b'0')))
}

// The number that digits write, if it is below 2^64.
fn value(digits: &[u8]) -> Option<u64>
    ensures { result ≡ below64 (worth digits.now) }
{
    digits.iter().try_fold(0, |n, digit| push_digit(n, *digit))
}

// The same, and none where the digits have a leading zero.
fn number(digits: &[u8]) -> Option<u64>
    ensures { result ≡ number_of digits.now }
{
    match digits {
        [b'0', _, ..] => None,
        _ => value(digits),
    }
}

// The token that a whole run of bytes is, if it is one.
fn lex<'a>(text: &'a [u8]) -> Option<Token<'a>>
    ensures { Lexed text.now result }
{
    match text.first()? {
        b'(' => Some(Token::Open),
        b')' => Some(Token::Close),
        b' ' => Some(Token::Space),
        b'a'..=b'z' => Some(Token::Word(text)),
        b'0'..=b'9' => number(text).map(|value| Token::Number {
            digits: text,
            value,
        }),
        _ => None,
    }
}

// The first token of a text, if it is a lawful one.
pub(crate) fn first_token<'a>(rest: &'a [u8]) -> Option<Token<'a>>
    ensures { First rest.now result }
{
    lex(&rest[..span(rest)])
}

ghost use Rattle.std.specs.Prelude.{◌≡◌, ◌+◌, ◌^◌, ◌<◌, ◌≤◌, ◌==◌, length, position};
ghost use Rattle.script.specs.Lint.{line_length, lines};

/// A line of a script.
#[derive(Clone, Copy, Debug, PartialEq, Eq)]
pub struct ScriptLine<'a> {
    /// Its number in the script, from 1.
    pub number: u64,
    /// Its bytes, without the line break.
    pub text: &'a [u8],
}

/// The lines that are left of a script, and the number of the first of them.
#[derive(Drop)]
pub struct Lines<'a> {
    rest: &'a [u8],
    number: u64,
    ghost fits: { number + length rest.now < 2 ^ 64 },
}

// Where the first line break stands.
fn line_break(rest: &[u8]) -> Option<usize>
    ensures { result ≡ position (λ b. b == 10) rest.now }
{
    rest.iter().position(|b| *b == b'\n')
}

/// How many bytes stand before the first line's end: before its line break, or all where there is
/// none.
pub fn line_length(rest: &[u8]) -> usize
    ensures value { result ≡ line_length rest.now }
    ensures within { result ≤ length rest.now }
{
    line_break(rest).unwrap_or(rest.len())
}

impl<'a> Lines<'a> {
    ghost use Rattle.script.specs.Split.{lines_left, next_number};

    /// All lines of a script, from number 1.
    pub fn new(input: &'a [u8]) -> Lines<'a>
        ensures lines { lines_left result ≡ lines input.now }
        ensures number { next_number result ≡ 1 }
    {
        Lines {
            rest: input,
            number: 1,
        }
    }
}

impl<'a> Iterator for Lines<'a> {
    ghost use Rattle.std.specs.Prelude.{length};
    ghost use Rattle.std.specs.Iterator.{at_most};
    ghost use Rattle.script.specs.Split.{GivesLine};

    type Item = ScriptLine<'a>;

    ghost remaining = { λ s. at_most (length s.rest.now) };

    ghost next_gives = { GivesLine };

    fn next(&mut self) -> Option<ScriptLine<'a>> {
        if self.rest.is_empty() {
            return None;
        }
        let number = self.number;
        let (text, behind) = self.rest.split_at(line_length(self.rest));
        self.rest = behind.get(1..).unwrap_or(behind);
        self.number += 1;
        Some(ScriptLine { number, text })
    }
}

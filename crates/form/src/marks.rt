ghost use Rattle.std.specs.Prelude.{◌≡◌, ◌↔◌, [], IsOk, IsTrue};
ghost use Rattle.form.specs.Marks.{added, room_for};

use std::marker::Model;

/// The marks of a line form, in the order written: numbers of processes, at most `MOST` of them.
/// One may stand twice.
#[derive(Clone, Copy, Debug, PartialEq, Eq)]
pub struct Marks {
    values: [u64; Marks::MOST],
    count: usize,
}

impl Model for Marks {
    ghost use Rattle.std.specs.Prelude.{ℕ, List};

    ghost Value = { List ℕ };

    ghost use Rattle.form.specs.Padded.{marks_listed, Padded, padded, padded_listed};

    ghost view = { marks_listed };

    ghost invariant = { Padded };

    ghost inverse = { padded };

    ghost inverse_ok = { padded_listed };
}

/// `MOST` marks stand already.
#[derive(Clone, Copy, Debug, PartialEq, Eq)]
pub struct Full;

impl Marks {
    /// The most marks that a line form may have.
    pub const MOST: usize = 16;

    /// No marks.
    pub fn new() -> Marks
        ensures { result ≡ [] }
    {
        Marks {
            values: [0; Marks::MOST],
            count: 0,
        }
    }

    /// Adds a mark behind the others. It is refused, and nothing changes, where `MOST` stand.
    pub fn push(&mut self, mark: u64) -> Result<(), Full>
        ensures answer { IsOk result ↔ IsTrue (room_for self.old) }
        ensures after { self.new ≡ added self.old mark }
    {
        if self.count == Marks::MOST {
            return Err(Full);
        }
        self.values[self.count] = mark;
        self.count += 1;
        Ok(())
    }

    /// The marks, in the order written.
    pub fn as_slice(&self) -> &[u64]
        ensures { result.now ≡ self.now }
    {
        &self.values[..self.count]
    }
}

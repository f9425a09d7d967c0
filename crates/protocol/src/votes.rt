// The sides of a case, the ballots that are cast on it, and the rounds that they are cast in.
ghost use Rattle.std.specs.Prelude.{◌≡◌};
ghost use Rattle.protocol.specs.Phases.{kind};
ghost use Rattle.protocol.specs.Numbers.{ballot_number, FromNumber, vote, proposal};

use crate::refusals::Refusal;

/// How a case may be decided.
#[derive(Clone, Copy, Debug, PartialEq, Eq)]
pub enum Side {
    Keep,
    Release,
}

/// What a process says in a round of a case. Its number, 0 to 4, is the body of its messages.
#[derive(Clone, Copy, Debug, PartialEq, Eq)]
pub enum Ballot {
    /// A vote to keep.
    Keep = 0,
    /// A vote to release.
    Release = 1,
    /// In a third round: more than half of all processes voted to keep.
    ProposeKeep = 2,
    /// In a third round: more than half of all processes voted to release.
    ProposeRelease = 3,
    /// In a third round: neither side is proposed.
    Open = 4,
}

/// The place of a round in its phase of three.
#[derive(Clone, Copy, Debug, PartialEq, Eq)]
pub enum Kind {
    First,
    Second,
    Third,
}

impl Ballot {
    /// The ballot's number, 0 to 4.
    pub fn number(self) -> u64
        ensures { result ≡ ballot_number self }
    {
        self as u64
    }

    /// The ballot that votes for a side.
    pub fn vote(side: Side) -> Ballot
        ensures { result ≡ vote side }
    {
        match side {
            Side::Keep => Ballot::Keep,
            Side::Release => Ballot::Release,
        }
    }

    /// The ballot that proposes a side.
    pub fn proposal(side: Side) -> Ballot
        ensures { result ≡ proposal side }
    {
        match side {
            Side::Keep => Ballot::ProposeKeep,
            Side::Release => Ballot::ProposeRelease,
        }
    }
}

impl Kind {
    /// Which round of its phase a round is. Rounds count from 0 here, so that 0 is a first one.
    pub fn of_round(round: u64) -> Kind
        ensures { result ≡ kind round }
    {
        match round % 3 {
            0 => Kind::First,
            1 => Kind::Second,
            _ => Kind::Third,
        }
    }
}

/// The ballot of a number. Refused (9) above 4.
impl TryFrom<u64> for Ballot {
    type Error = Refusal;

    ghost try_from_gives = { FromNumber };

    fn try_from(number: u64) -> Result<Ballot, Refusal> {
        match number {
            0 => Ok(Ballot::Keep),
            1 => Ok(Ballot::Release),
            2 => Ok(Ballot::ProposeKeep),
            3 => Ok(Ballot::ProposeRelease),
            4 => Ok(Ballot::Open),
            _ => Err(Refusal::ValueOutOfRange),
        }
    }
}

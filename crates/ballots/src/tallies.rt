// How many there are of each ballot, and which ballots some set of them allows.
ghost use Rattle.std.specs.Prelude.{◌≡◌};

use protocol::{Ballot, PROCESSES};

/// The ballots of a round by originator, none where a process has no valid one.
pub type RoundBallots = [Option<Ballot>; PROCESSES as usize];

/// One thing for each of the five ballots.
#[derive(Clone, Copy, Debug, PartialEq, Eq)]
pub struct ByBallot<T> {
    /// For the vote to keep.
    pub keep: T,
    /// For the vote to release.
    pub release: T,
    /// For the proposal to keep.
    pub propose_keep: T,
    /// For the proposal to release.
    pub propose_release: T,
    /// For the ballot that proposes no side.
    pub open: T,
}

/// How many of the sixteen places of a row have each ballot, 0 to 16.
pub type Tally = ByBallot<u8>;

/// Which ballots are allowed in the round after.
pub type Allowed = ByBallot<bool>;

impl<T: Copy> ByBallot<T> {
    ghost use Rattle.ballots.specs.Tallies.{part};

    /// What it has for a ballot.
    pub fn get(self, ballot: Ballot) -> T
        ensures { result ≡ part self ballot }
    {
        match ballot {
            Ballot::Keep => self.keep,
            Ballot::Release => self.release,
            Ballot::ProposeKeep => self.propose_keep,
            Ballot::ProposeRelease => self.propose_release,
            Ballot::Open => self.open,
        }
    }
}

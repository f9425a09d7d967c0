// Counting the ballots of a round.
ghost use Rattle.std.specs.Prelude.{◌≡◌, count_by};
ghost use Rattle.ballots.specs.Tallies.{counts, is_ballot, ballot_in};
ghost use Rattle.ballots.specs.Votes.{CountingFinds};

use crate::tallies::{RoundBallots, Tally};
use protocol::Ballot;

/// How many a row has of each ballot.
pub fn count(row: &RoundBallots) -> Tally
    ensures { result ≡ counts 16 (ballot_in row.now) }
{
    Tally {
        keep: count_of(row, Ballot::Keep),
        release: count_of(row, Ballot::Release),
        propose_keep: count_of(row, Ballot::ProposeKeep),
        propose_release: count_of(row, Ballot::ProposeRelease),
        open: count_of(row, Ballot::Open),
    }
}

fn count_of(row: &RoundBallots, ballot: Ballot) -> u8
    ensures { result ≡ count_by (is_ballot ballot) row.now }
{
    let mut count = 0;
    for cast in row {
        if *cast == Some(ballot) {
            count += 1;
        }
    }
    count
}

/// Counting finds exactly the valid ballots, whatever was accepted. The function does nothing: it
/// carries the theorem.
pub fn counting_is_exact()
    ensures { CountingFinds }
{}

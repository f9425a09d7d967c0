// What sets of m = n - t ballots of a round can allow in the round after it.
ghost use Rattle.std.specs.Prelude.{◌≡◌};
ghost use Rattle.protocol.specs.Phases.{kind};
ghost use Rattle.ballots.specs.Votes.{after_first, after_second, after_third, allowed_after, sifted};

use crate::tallies::{Allowed, Tally};
use plan::Plan;
use protocol::{Ballot, Kind};

const NOTHING: Allowed = Allowed {
    keep: false,
    release: false,
    propose_keep: false,
    propose_release: false,
    open: false,
};

// A case begins with votes.
pub(crate) const VOTES: Allowed = Allowed {
    keep: true,
    release: true,
    ..NOTHING
};

// By the ballots of a round. Rounds count from 0 here.
#[tactic(auto, unfolding(crate::specs::Votes::allowed_after))]
pub(crate) fn allowed_after(plan: &Plan, round: u64, tally: Tally) -> Allowed
    ensures { result ≡ allowed_after plan.now.n plan.now.t (kind round) tally }
{
    let m = plan.quorum();
    match Kind::of_round(round) {
        Kind::First => after_first(m, tally),
        Kind::Second => after_second(plan.n(), m, tally),
        Kind::Third => after_third(plan.t(), m, tally),
    }
}

// The side that can be ahead, keep if it can be a tie.
fn after_first(m: u64, tally: Tally) -> Allowed
    ensures { result ≡ after_first m tally }
{
    let keep = u64::from(tally.keep);
    let release = u64::from(tally.release);
    let full = keep + release >= m;
    Allowed {
        keep: full && 2 * keep.min(m) >= m,
        release: full && 2 * release.min(m) > m,
        ..NOTHING
    }
}

// A proposal of the side that can have more than half of all n; open if it can be that neither has.
fn after_second(n: u64, m: u64, tally: Tally) -> Allowed
    ensures { result ≡ after_second n m tally }
{
    let keep = u64::from(tally.keep);
    let release = u64::from(tally.release);
    let full = keep + release >= m;
    Allowed {
        propose_keep: full && 2 * keep.min(m) > n,
        propose_release: full && 2 * release.min(m) > n,
        open: keep.min(n / 2) + release.min(n / 2) >= m,
        ..NOTHING
    }
}

// The side that can have more than t proposals, or both if it can be that neither has.
fn after_third(t: u64, m: u64, tally: Tally) -> Allowed
    ensures { result ≡ after_third t m tally }
{
    let keep = u64::from(tally.propose_keep);
    let release = u64::from(tally.propose_release);
    let open = u64::from(tally.open);
    let full = keep + release + open >= m;
    let tossed = keep.min(t) + release.min(t) + open >= m;
    Allowed {
        keep: full && keep.min(m) > t || tossed,
        release: full && release.min(m) > t || tossed,
        ..NOTHING
    }
}

// The ballot that a body is, if it is one that is allowed.
pub(crate) fn sift(allowed: Allowed, body: Option<u64>) -> Option<Ballot>
    ensures { result ≡ sifted allowed body }
{
    body.and_then(|number| Ballot::try_from(number).ok())
        .filter(|ballot| allowed.get(*ballot))
}

//! Reliable broadcast as an abstract machine, and what holds in each of its runs. No code runs
//! here: each function carries a theorem.
#![tactic(auto)]

ghost use Rattle.agreement.specs.Worlds.{Counting};
ghost use Rattle.agreement.specs.Runs.{State};
ghost use Rattle.agreement.specs.Broadcasts.{WeighedBroadcasts, CountedBroadcasts, Lasting, BroadcastHappens};

/// Correct processes accept alike, and what a correct one told. Once nothing waits for them, all of
/// them have accepted.
pub fn broadcast_stands()
    ensures weighed { WeighedBroadcasts }
    ensures counted { CountedBroadcasts }
{}

/// No transition takes back what was told or accepted.
pub fn broadcast_lasts()
    ensures { Lasting }
{}

/// A lawful world has a run in which something is told and accepted.
pub fn broadcast_happens()
    ensures { (st : State) × BroadcastHappens st }
{}

/// Counting processes is a weight, with any thresholds that meet the five facts.
pub fn counting_serves()
    ensures { Counting }
{}

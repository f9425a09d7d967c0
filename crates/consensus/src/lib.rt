//! Consensus on one case: which ballots are valid, and what sets of them decide. No code runs here:
//! each function carries a theorem.
#![tactic(auto)]

ghost use Rattle.consensus.specs.Decisions.{Monotone, Proposals, Locking, Settling, UnanimityDecides, DecisionsAgree, LuckSettles, Lowest, Enough, DecisionHappens};
ghost use Rattle.consensus.specs.Maps.{Joining, Deciding, Going};
ghost use Rattle.consensus.specs.Rounds.{BallotMap};
ghost use Rattle.protocol.specs.declared.votes.Side.{Side};
ghost use Rattle.std.specs.Prelude.{ℕ, Bool};

/// What is valid for a process stays valid, and is valid for all who have accepted as much.
pub fn validity_grows()
    ensures { Monotone }
{}

/// No round has valid proposals of both sides.
pub fn proposals_agree()
    ensures { Proposals }
{}

/// A decision binds the next round.
pub fn decision_locks()
    ensures { Locking }
{}

/// What correct processes vote unanimously is decided, in this phase and in all later ones.
pub fn unanimity_settles()
    ensures settling { Settling }
    ensures validity { UnanimityDecides }
{}

/// No two decisions differ.
pub fn decisions_agree()
    ensures { DecisionsAgree }
{}

/// The maps of correct processes that accept alike are parts of one, and so what they decide by
/// them agrees.
pub fn maps_join()
    ensures joining { Joining }
    ensures deciding { Deciding }
{}

/// A coin that shows what is forced ends the case in the phase after.
pub fn luck_settles()
    ensures { LuckSettles }
{}

/// A process with enough valid ballots can go on, and those of the correct processes are enough.
pub fn rounds_go_on()
    ensures lowest { Lowest }
    ensures enough { Enough }
    ensures going { Going }
{}

/// Either side may be decided.
pub fn decision_happens()
    ensures { (v : Side) → (G : BallotMap) × (S : ℕ → Bool) × DecisionHappens v G S }
{}

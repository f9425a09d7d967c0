// What the places of a memory hold. Any contents are legal.
ghost use Rattle.std.specs.Prelude.{◌≡◌};

use protocol::Side;

/// How far a process is in the broadcast of one subject.
#[derive(Clone, Copy, Debug, PartialEq, Eq)]
pub enum Stage {
    /// It has sent nothing.
    Silent,
    /// It has sent an echo.
    Echoed,
    /// It has sent an echo and a ready.
    Readied,
    /// It has accepted this body, and does no more.
    Accepted(u64),
}

impl Stage {
    ghost use Rattle.memory.specs.Contents.{accepted_body};

    /// The body that was accepted, if one was.
    pub fn accepted(self) -> Option<u64>
        ensures { result ≡ accepted_body self }
    {
        match self {
            Stage::Accepted(body) => Some(body),
            _ => None,
        }
    }
}

/// What a process keeps of one subject, beside the bodies that it heard.
#[derive(Clone, Copy, Debug, PartialEq, Eq)]
pub struct BroadcastRecord {
    /// How far the process is with the subject.
    pub stage: Stage,
}

impl BroadcastRecord {
    /// What a cleared place holds.
    pub const SILENT: BroadcastRecord = BroadcastRecord {
        stage: Stage::Silent,
    };
}

/// Where the release slip of a process is for a case.
#[derive(Clone, Copy, Debug, PartialEq, Eq)]
pub enum Slip {
    /// None was issued, or it was put back.
    Absent,
    /// It is issued and not given back.
    Out,
    /// It was used. No other follows.
    HandedOver,
}

/// How a process decided a case.
#[derive(Clone, Copy, Debug, PartialEq, Eq)]
pub struct Decision {
    /// The side that was decided.
    pub side: Side,
    /// The phase in which it was, counted from 1.
    pub phase: u8,
}

/// What a process keeps of one case.
#[derive(Clone, Copy, Debug, PartialEq, Eq)]
pub struct CaseRecord {
    /// The round that it is in, counted from 1. At 0 the case is not opened; above the plan's
    /// last round it has ended.
    pub round: u8,
    /// Its first decision, if it has decided.
    pub decision: Option<Decision>,
    /// Where its release slip is.
    pub slip: Slip,
}

impl CaseRecord {
    /// What a cleared place holds.
    pub const UNOPENED: CaseRecord = CaseRecord {
        round: 0,
        decision: None,
        slip: Slip::Absent,
    };
}

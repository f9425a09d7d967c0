// Plans: making one and reading its numbers.
ghost use Rattle.std.specs.Prelude.{◌≡◌, ◌-◌, ◌*◌, ◌<◌, ◌≤◌};

use protocol::{PROCESSES, Refusal};

pub mod sheet;

const MOST_SERIALS: u64 = 32;

const MOST_CASES: u64 = 8;

const MOST_PHASES: u64 = 16;

/// How many processes a line has, how many of them may be faulty, and how much they may say.
/// Every plan is within the ranges of `Plan::new`.
#[derive(Clone, Copy, Debug, PartialEq, Eq)]
pub struct Plan {
    n: u8,
    t: u8,
    serials: u8,
    cases: u8,
    phases: u8,
    ghost few: { n ≤ 16 },
    ghost tolerated: { 3 * t < n },
    ghost numbered: { serials ≤ 32 },
    ghost listed: { cases ≤ 8 },
    ghost first: { 1 ≤ phases },
    ghost last: { phases ≤ 16 },
}

/// How many places each part of a line's memory has to have.
#[derive(Clone, Copy, Debug, PartialEq, Eq)]
pub struct Needs {
    /// n * n * (serials + rounds * cases), at most 106,496.
    pub broadcast_records: usize,
    /// 2n for each broadcast record, at most 3,407,872.
    pub body_places: usize,
    /// n * cases, at most 128.
    pub case_records: usize,
    /// n, at most 16.
    pub next_serials: usize,
}

/// How many messages with the same body, each from another sender, bring about a step.
#[derive(Clone, Copy, Debug, PartialEq, Eq)]
pub struct Thresholds {
    /// Echoes that make a process send a ready.
    pub echo: u8,
    /// Readies that make a process send a ready.
    pub ready: u8,
    /// Readies that make a process accept.
    pub accept: u8,
}

impl Plan {
    ghost use Rattle.plan.specs.Plans.{planned, rounds, quorum, needs_of};

    /// A plan of n processes, 1 to 16, of which fewer than a third may be faulty: 3t < n. Each
    /// may announce up to 32 items. There are up to 8 cases, each of 1 to 16 phases. Refused (1)
    /// outside these ranges.
    pub fn new(n: u64, t: u64, serials: u64, cases: u64, phases: u64) -> Result<Plan, Refusal>
        ensures { result ≡ planned n t serials cases phases }
    {
        if !(1..=PROCESSES).contains(&n) || t > (n - 1) / 3 {
            return Err(Refusal::PlanOutOfRange);
        }
        if serials > MOST_SERIALS || cases > MOST_CASES || !(1..=MOST_PHASES).contains(&phases) {
            return Err(Refusal::PlanOutOfRange);
        }
        Ok(Plan {
            n: n as u8,
            t: t as u8,
            serials: serials as u8,
            cases: cases as u8,
            phases: phases as u8,
        })
    }

    /// The number of processes, 1 to 16.
    pub fn n(&self) -> u64
        ensures { result ≡ self.now.n }
    {
        u64::from(self.n)
    }

    /// How many of the processes may be faulty, 0 to 5.
    pub fn t(&self) -> u64
        ensures { result ≡ self.now.t }
    {
        u64::from(self.t)
    }

    /// How many items each process may announce, 0 to 32.
    pub fn serials(&self) -> u64
        ensures { result ≡ self.now.serials }
    {
        u64::from(self.serials)
    }

    /// How many cases there are, 0 to 8.
    pub fn cases(&self) -> u64
        ensures { result ≡ self.now.cases }
    {
        u64::from(self.cases)
    }

    /// How many phases of three rounds a case has, 1 to 16.
    pub fn phases(&self) -> u64
        ensures { result ≡ self.now.phases }
    {
        u64::from(self.phases)
    }

    /// How many rounds a case has, 3 to 48.
    pub fn rounds(&self) -> u64
        ensures { result ≡ rounds self.now }
    {
        3 * self.phases()
    }

    /// n - t: how many processes can be waited for, since t may stay silent.
    pub fn quorum(&self) -> u64
        ensures { result ≡ quorum self.now }
    {
        self.n() - self.t()
    }

    /// The places that a line of this plan needs. Each process has a broadcast record for each
    /// subject of each originator, and to each record belong a place for every sender's echo and
    /// one for its ready.
    pub fn needs(&self) -> Needs
        ensures { result ≡ needs_of self.now }
    {
        let n = self.n as usize;
        let cases = self.cases as usize;
        let rounds = self.rounds() as usize;
        let subjects = self.serials as usize + rounds * cases;
        let broadcast_records = n * n * subjects;
        Needs {
            broadcast_records,
            body_places: 2 * n * broadcast_records,
            case_records: n * cases,
            next_serials: n,
        }
    }
}

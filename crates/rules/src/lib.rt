// The public types of the simulator. What they mean stands in specs/, which follows document 01.
#![tactic(auto)]

ghost use Rattle.std.specs.Prelude.{◌≡◌, get_or};
ghost use Rattle.rules.specs.Fields.{place_of, counts, counted};
ghost use Rattle.rules.specs.Choice.{runner_byte};
ghost use Rattle.rules.specs.Coded.{numbers};

use std::error::Error;
use std::fmt;

// The job of a task, all zero where none is pending: the index of its next step, the ticks left of that step, the tick of its
// release, and its ticks blocked. `pending` stays a flag beside the numbers: a record may be handed in that has some of them with no
// job pending, and is then turned away by 16.
#[derive(Clone, Copy, PartialEq, Eq, Debug, Default)]
pub struct Job {
    pub pending: bool,
    pub position: u8,
    pub left: u16,
    pub release: u16,
    pub present: u16,
}

// What a run counts for a task, with the worst response and the most ticks blocked that any job had.
#[derive(Clone, Copy, PartialEq, Eq, Debug, Default)]
pub struct Counts {
    pub releases: u16,
    pub completions: u16,
    pub misses: u16,
    pub ran: u16,
    pub blocked: u16,
    pub worst: u16,
    pub most: u16,
}

// The name of a count,
#[derive(Clone, Copy, PartialEq, Eq, Debug)]
pub enum Count {
    Releases,
    Completions,
    Misses,
    TicksRun,
    TicksBlocked,
    WorstResponse,
    MostBlocked,
}

// its place in the row of all;
impl From<Count> for usize {
    ghost from_gives = { λ k place. place ≡ place_of k };

    fn from(k: Count) -> usize {
        k as usize
    }
}

// the counts as that row,
impl From<Counts> for [u16; 7] {
    ghost from_gives = { λ c row. row ≡ counted c };

    #[tactic(auto, unfolding(crate::specs::Fields::counted))]
    fn from(c: Counts) -> [u16; 7] {
        [
            c.releases,
            c.completions,
            c.misses,
            c.ran,
            c.blocked,
            c.worst,
            c.most,
        ]
    }
}

// and counts from their row.
impl From<[u16; 7]> for Counts {
    ghost from_gives = { λ row c. c ≡ counts (λ k. get_or row (place_of k) 0) };

    fn from(row: [u16; 7]) -> Counts {
        let [releases, completions, misses, ran, blocked, worst, most] = row;
        Counts {
            releases,
            completions,
            misses,
            ran,
            blocked,
            worst,
            most,
        }
    }
}

// One task in the record of a run.
#[derive(Clone, Copy, PartialEq, Eq, Debug, Default)]
pub struct TaskRecord {
    pub job: Job,
    pub counts: Counts,
}

// The job that ran last, by its rank and the tick of its release: 255 and 0 while none has run.
#[derive(Clone, Copy, PartialEq, Eq, Debug, Default)]
pub struct LastJob {
    pub rank: u8,
    pub release: u16,
}

// The record of a run: the tick, the switches, the job that ran last and the tasks by rank.
#[derive(Clone, Copy, PartialEq, Eq, Debug, Default)]
pub struct State {
    pub t: u16,
    pub switches: u16,
    pub last: LastJob,
    pub tasks: [TaskRecord; 16],
}

// Why a call is turned away, in the order of document 01's numbers. From 7 to 12 a refusal has the task's rank, and at 11 and 12
// the step's index.
#[derive(Clone, Copy, PartialEq, Eq, Debug)]
pub enum Refusal {
    Short,
    Mark,
    Version,
    TaskCount,
    SemaphoreCount,
    Mode,
    Cut(u8),
    Period(u8),
    Offset(u8),
    StepCount(u8),
    UnknownStep(u8, u8),
    Nesting(u8, u8),
    BytesLeft,
    Horizon,
    Buffer,
    Impossible,
    Ended,
}

impl Refusal {
    // Document 01's number,
    pub fn number(self) -> u8
        ensures { result ≡ (numbers self).number }
    {
        match self {
            Refusal::Short => 1,
            Refusal::Mark => 2,
            Refusal::Version => 3,
            Refusal::TaskCount => 4,
            Refusal::SemaphoreCount => 5,
            Refusal::Mode => 6,
            Refusal::Cut(_) => 7,
            Refusal::Period(_) => 8,
            Refusal::Offset(_) => 9,
            Refusal::StepCount(_) => 10,
            Refusal::UnknownStep(_, _) => 11,
            Refusal::Nesting(_, _) => 12,
            Refusal::BytesLeft => 13,
            Refusal::Horizon => 14,
            Refusal::Buffer => 15,
            Refusal::Impossible => 16,
            Refusal::Ended => 17,
        }
    }

    // the task's rank, where it has one,
    pub fn rank(self) -> u8
        ensures { result ≡ (numbers self).rank }
    {
        match self {
            Refusal::Cut(rank)
            | Refusal::Period(rank)
            | Refusal::Offset(rank)
            | Refusal::StepCount(rank)
            | Refusal::UnknownStep(rank, _)
            | Refusal::Nesting(rank, _) => rank,
            _ => 0,
        }
    }

    // and the step's index.
    pub fn step(self) -> u8
        ensures { result ≡ (numbers self).step }
    {
        match self {
            Refusal::UnknownStep(_, step) | Refusal::Nesting(_, step) => step,
            _ => 0,
        }
    }
}

impl fmt::Display for Refusal {
    fn fmt<W: fmt::Write>(&self, f: &mut fmt::Formatter<W>) -> fmt::Result {
        let number = self.number();
        let rank = self.rank();
        let step = self.step();
        write!(f, "refused {number} task {rank} step {step}")
    }
}

impl Error for Refusal {}

// The head of a sheet: how many tasks and semaphores, and the mode.
#[derive(Clone, Copy, PartialEq, Eq, Debug, Default)]
pub struct Head {
    pub n: u8,
    pub semaphores: u8,
    pub mode: u8,
}

// Who runs in a tick: a job, by its rank, or nobody.
#[derive(Clone, Copy, PartialEq, Eq, Debug)]
pub enum Runner {
    Rank(u8),
    Stuck,
    Idle,
}

// Document 01's runner byte.
impl From<Runner> for u8 {
    ghost from_gives = { λ x byte. byte ≡ runner_byte x };

    #[tactic(auto, unfolding(crate::specs::Choice::runner_byte))]
    fn from(x: Runner) -> u8 {
        match x {
            Runner::Rank(i) => i,
            Runner::Stuck => 254,
            Runner::Idle => 255,
        }
    }
}

// A section, by the rank of its task and the index of its lock step.
#[derive(Clone, Copy, PartialEq, Eq, Debug, Default)]
pub struct Section {
    pub rank: u8,
    pub step: u8,
}

// A bound, and the section that gives it, if one does.
#[derive(Clone, Copy, PartialEq, Eq, Debug, Default)]
pub struct Bound {
    pub ticks: u16,
    pub by: Option<Section>,
}

// A laxity, which may be negative, and what gives the bound in it.
#[derive(Clone, Copy, PartialEq, Eq, Debug, Default)]
pub struct Laxity {
    pub ticks: i64,
    pub by: Option<Section>,
}

// What one tick by value answers: who ran, or the refusal; and the next record, or the one that came.
#[derive(Clone, Copy, PartialEq, Eq, Debug)]
pub struct AfterTick {
    pub told: Result<Runner, Refusal>,
    pub state: State,
}

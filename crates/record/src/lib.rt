// The record's fields in code, as rules/specs/Fields.antt lists them: the makers, the counts that rise, the tests that look at
// every field. The other crates name a field only where a rule is about it.
#![tactic(auto)]

ghost use Rattle.std.specs.Prelude.{◌≡◌, ◌<◌};
ghost use Rattle.rules.specs.Fields.{count, up, standing, moved_to, no_job, place, zeros, zero_record, last_job, none_yet, same_job, no_state, start};
ghost use Rattle.rules.specs.Record.{counts_fit};
ghost use Rattle.rules.specs.Tick.{completed, was_blocked};

use rules::{Count, Counts, Job, LastJob, State, TaskRecord};

// Counts of which one has risen by one.
#[tactic(auto, using(rules::proofs::Fields::counted_at, crate::proofs::Laws::risen))]
pub fn up(k: Count, c: Counts) -> Counts
    requires { count k c < 65535 }
    ensures { result ≡ up k c }
{
    let mut row = <[u16; 7]>::from(c);
    row[usize::from(k)] += 1;
    Counts::from(row)
}

// The counts of a job that completes.
pub fn completed(response: u16, c: Counts) -> Counts
    requires { c.completions < 65535 }
    ensures { result ≡ completed response c }
{
    Counts {
        completions: c.completions + 1,
        worst: c.worst.max(response),
        ..c
    }
}

// A job that stands at a step, one that moves on, and none.
pub fn standing(position: u8, left: u16, release: u16, present: u16) -> Job
    ensures { result ≡ standing position left release present }
{
    Job {
        pending: true,
        position,
        left,
        release,
        present,
    }
}

pub fn moved_to(position: u8, left: u16, j: Job) -> Job
    ensures { result ≡ moved_to position left j }
{
    standing(position, left, j.release, j.present)
}

pub fn no_job() -> Job
    ensures { result ≡ no_job }
{
    Job::default()
}

// The record of a job that is blocked for a tick: its ticks blocked rise, and the counts with them.
pub fn was_blocked(x: TaskRecord) -> TaskRecord
    requires blocked_bound { x.counts.blocked < 65535 }
    requires present_bound { x.job.present < 65535 }
    ensures { result ≡ was_blocked x }
{
    let present = x.job.present + 1;
    TaskRecord {
        job: Job {
            pending: true,
            present,
            ..x.job
        },
        counts: Counts {
            blocked: x.counts.blocked + 1,
            most: x.counts.most.max(present),
            ..x.counts
        },
    }
}

// The job that ran last, by rank and release tick; none has run, which is a pair of numbers that a record may hold like any other
// (document 02, W3: 255 and 0), and so no Option; the same job.
pub fn last_job(rank: u8, release: u16) -> LastJob
    ensures { result ≡ last_job rank release }
{
    LastJob { rank, release }
}

pub fn none_yet() -> LastJob
    ensures { result ≡ none_yet }
{
    last_job(255, 0)
}

#[tactic(auto, unfolding(rules::specs::Fields::same_job))]
pub fn same_job(a: LastJob, b: LastJob) -> bool
    ensures { result ≡ same_job a b }
{
    a == b
}

// A run's record that is zero, and the start.
pub fn no_state() -> State
    ensures { result ≡ no_state }
{
    State::default()
}

pub fn start() -> State
    ensures { result ≡ start }
{
    State {
        last: none_yet(),
        ..no_state()
    }
}

// every count and worst response is at most t;
pub fn counts_fit(t: u16, c: Counts) -> bool
    ensures { result ≡ counts_fit t c }
{
    <[u16; 7]>::from(c).iter().all(|&x| x <= t)
}

// position, left, release tick and ticks blocked zero;
#[tactic(auto, unfolding(rules::specs::Fields::zeros, rules::specs::Fields::place, rules::specs::Words::all))]
pub fn zero_place(j: Job) -> bool
    ensures { result ≡ zeros (place j) }
{
    Job {
        pending: false,
        ..j
    } == Job::default()
}

// records at n and above are zero;
#[tactic(auto, unfolding(rules::specs::Fields::zero_record, rules::specs::Fields::zeros, rules::specs::Fields::place, rules::specs::Fields::counted, rules::specs::Words::all))]
pub fn zero_record(x: TaskRecord) -> bool
    ensures { result ≡ zero_record x }
{
    x == TaskRecord::default()
}

// Refusal 16: whether a run state is possible for a sheet, decided for any record that is handed in. The functions follow
// document 01's sentence from its first condition to its last.
#![tactic(auto)]

ghost use Rattle.std.specs.Prelude.{◌≡◌, ◌<◌, ◌&&◌, drop, length};
ghost use Rattle.rules.specs.Words.{◌≤?◌, ◌⇒◌};
ghost use Rattle.rules.specs.Sheet.{task_at};
ghost use Rattle.rules.specs.Fields.{zero_record};
ghost use Rattle.rules.specs.Record.{last_fits, stands_well, job_fits, present_fits, record_fits, none_held_by_two, possible};
ghost use Rattle.table.specs.Table.{sheet_of};
ghost use Rattle.table.specs.Tasks.{task_of};
ghost use Rattle.possible.specs.Records.{records_fit};
ghost use Rattle.possible.specs.Holding.{same_holders, holds_alone};

use holders::{after_steps, holders_of};
use rules::{Job, LastJob, State, TaskRecord};
use table::{Step, Table, Task};

// the remembered job's rank is below n and its release tick below t, unless the pair is 255 and 0;
#[tactic(auto, unfolding(rules::specs::Record::last_fits, rules::specs::Fields::same_job))]
fn last_fits(n: usize, t: u16, j: LastJob) -> bool
    ensures { result ≡ last_fits n t j }
{
    usize::from(j.rank) < n && j.release < t || j == record::none_yet()
}

// (a pending one) stands at a run with 1 to its full length left, or at a lock with 0 left;
#[tactic(auto, using(crate::proofs::Fits::stands_by), unfolding(rules::specs::Words::within))]
fn stands_well(task: &Task, position: usize, left: u16) -> bool
    ensures { result ≡ stands_well (drop position (task_of task.now).steps) left }
{
    match task.step_at(position) {
        Some(Step::Run(full)) => (1..=full).contains(&left),
        Some(Step::Lock(_)) => left == 0,
        Some(Step::Unlock(_)) | None => false,
    }
}

// a task not pending has position, left, release tick and ticks blocked zero; a pending one has a release tick below t, and
// stands well;
#[tactic(auto, unfolding(rules::specs::Record::job_fits, rules::specs::Record::ahead))]
fn job_fits(task: &Task, t: u16, j: Job) -> bool
    ensures { result ≡ job_fits t (task_of task.now) j }
{
    if j.pending {
        j.release < t && stands_well(task, j.position as usize, j.left)
    } else {
        record::zero_place(j)
    }
}

// the blocked ticks of the present job are not above t, nor above the most;
#[tactic(auto, unfolding(rules::specs::Record::present_fits))]
fn present_fits(t: u16, x: TaskRecord) -> bool
    ensures { result ≡ present_fits t x }
{
    x.job.present <= t && x.job.present <= x.counts.most
}

// a job fits its task, and records at n and above are zero;
#[tactic(auto, using(crate::proofs::Fits::past_last))]
fn rank_fits(table: &Table, t: u16, i: usize, x: TaskRecord) -> bool
    ensures { result ≡ job_fits t (task_at (sheet_of table.now) i) x.job && (length (sheet_of table.now).tasks ≤? i ⇒ zero_record x) }
{
    match table.tasks().get(i) {
        Some(task) => job_fits(task, t, x.job),
        None => record::zero_record(x),
    }
}

// The record of rank i: every count and worst response is at most t, and all of the above.
#[tactic(auto, unfolding(rules::specs::Record::record_fits))]
fn record_fits(table: &Table, t: u16, i: usize, x: TaskRecord) -> bool
    ensures { result ≡ record_fits (sheet_of table.now) t i x }
{
    record::counts_fit(t, x.counts) && present_fits(t, x) && rank_fits(table, t, i, x)
}

// The sixteen records.
fn records_fit(table: &Table, st: State) -> bool
    ensures { result ≡ records_fit (sheet_of table.now) st }
{
    let t = st.t;
    st.tasks
        .iter()
        .enumerate()
        .all(|(i, x)| record_fits(table, t, i, *x))
}

// Each semaphore that has a holder in `own`, and not 255, has the same in `hs`.
fn same_holders(own: [u8; 16], hs: [u8; 16]) -> bool
    ensures { result ≡ same_holders own hs }
{
    own.iter().zip(&hs).all(|(own, h)| *own == 255 || h == own)
}

// Each semaphore that a job of rank i holds has rank i for its holder in `hs`.
fn holds_alone(task: &Task, j: Job, i: u8, hs: [u8; 16]) -> bool
    requires { i < 255 }
    ensures { result ≡ holds_alone i (task_of task.now) j hs }
{
    let steps = task.steps();
    !j.pending || same_holders(after_steps(steps, 0, j.position as usize, i, [255; 16]), hs)
}

// no semaphore is held by two: where two hold one, the holder is only one of them.
fn none_held_by_two(table: &Table, st: State) -> bool
    ensures { result ≡ none_held_by_two (sheet_of table.now) st.tasks }
{
    let hs = holders_of(table, st);
    for (i, task) in table.tasks().iter().enumerate() {
        if !holds_alone(task, st.tasks[i].job, i as u8, hs) {
            return false;
        }
    }
    true
}

// A state is possible when: t is at most 60,000; every count is at most t, that of switches too; and all of the above.
#[tactic(auto, unfolding(rules::specs::Record::possible, crate::specs::Records::records_fit))]
pub fn possible_state(table: &Table, st: State) -> bool
    ensures { result ≡ possible (sheet_of table.now) st }
{
    st.t <= 60000
        && st.switches <= st.t
        && last_fits(table.len(), st.t, st.last)
        && records_fit(table, st)
        && none_held_by_two(table, st)
}

// What a tick does apart from the choice of the runner: the releases (rule 1), the runner's tick (rules 5 and 6) and the
// tick's end (rule 7). Each contract names the definition of rules/specs/Tick.antt that the function is equal to.
#![tactic(auto)]

ghost use Rattle.std.specs.Prelude.{◌≡◌, Bool, true, ℕ, ◌+◌, ◌-◌, ◌<◌, ◌≤◌, max, drop, if◌then◌else◌};
ghost use Rattle.rules.specs.Words.{leading};
ghost use Rattle.rules.specs.Sheet.{Step as Rules·Step, no_task};
ghost use Rattle.rules.specs.Fields.{with_tasks, same_job};
ghost use Rattle.rules.specs.Tick.{releases_at, released, after_releases, left_of_run, next_run, advanced, spent, after_runner, ran_last, closed};
ghost use Rattle.rules.specs.declared.Runner.TheVariants.{Rank};
ghost use Rattle.table.specs.Table.{sheet_of};
ghost use Rattle.table.specs.Tasks.{task_of};
ghost use Rattle.record.specs.Room.{CountsBelow, AllBelow};
ghost use Rattle.effect.specs.Effect.{Rests, Quiet, each_blocked, Tells};

use rules::{Count, Job, LastJob, Runner, State, TaskRecord};
use table::{Step, Table, Task};

// CountsBelow and AllBelow stay clauses: the room for a tick's counts is there at one moment of the tick and gone at the next, and
// any numbers may stand in a State.

// Rule 1: whether a task has a release at t.
#[tactic(auto, unfolding(rules::specs::Tick::releases_at))]
fn releases_at(t: u16, task: &Task) -> bool
    ensures { result ≡ releases_at t (task_of task.now) }
{
    task.offset() <= t && (t - task.offset()) % task.period() == 0
}

// The record of a task that has a release at t.
#[tactic(auto, unfolding(rules::specs::Tick::released))]
fn released(t: u16, task: &Task, r: TaskRecord) -> TaskRecord
    requires counts_below { CountsBelow 65535 r.counts }
    requires due { releases_at t (task_of task.now) ≡ true }
    ensures { result ≡ released t (task_of task.now) r }
{
    let counts = record::up(Count::Releases, r.counts);
    if r.job.pending {
        let counts = record::up(Count::Misses, counts);
        return TaskRecord { counts, ..r };
    }
    let job = record::standing(0, task.full_at(0), t, 0);
    TaskRecord { job, counts }
}

// The state after the releases of its tick. Records at n and above are not looked at.
pub fn after_releases(table: &Table, mut st: State) -> State
    requires { AllBelow 65535 st.tasks }
    ensures { result ≡ with_tasks st (after_releases (sheet_of table.now) st) }
{
    for (i, task) in table.tasks().iter().enumerate() {
        if releases_at(st.t, task) {
            st.tasks[i] = released(st.t, task, st.tasks[i]);
        }
    }
    st
}

// The task's first release after t.
#[tactic(auto, using(crate::proofs::Laws::rests_early, crate::proofs::Laws::rests_then))]
fn next_release(t: u16, task: &Task) -> u32
    ensures { Rests (t + 1) result (task_of task.now) }
{
    let offset = task.offset();
    if t < offset {
        return u32::from(offset);
    }
    let since = (t - offset) % task.period();
    u32::from(t) + u32::from(task.period() - since)
}

// A tick before which no task has a release after t: the first of their next ones, 60,000 at most, where every run has ended.
pub fn quiet_until(table: &Table, t: u16) -> u32
    ensures { Quiet (t + 1) result (sheet_of table.now) }
{
    let mut due = 60000;
    for task in table.tasks() {
        due = next_release(t, task).min(due);
    }
    due
}

// Past the steps from a position on that pass a test.
fn past<F: Fn(Step) -> bool>(task: &Task, from: usize, passes: F) -> usize
    requires { F.IsAlwaysCallable passes }
    ensures value { (test : Rules·Step → Bool) → Tells (F.post passes) test → result ≡ from + leading test (drop from (task_of task.now).steps) }
    ensures within { result ≤ max from 64 }
{
    let steps = task.steps();
    let ahead = &steps[from.min(steps.len())..];
    from + ahead.iter().take_while(|x| passes(Step::from(**x))).count()
}

// Rule 5: the ticks left of the next run, which stands at p.
#[tactic(auto, unfolding(rules::specs::Tick::left_of_run))]
fn left_of_run(task: &Task, j: Job, p: usize) -> u16
    requires { p ≡ next_run (task_of task.now) j }
    ensures { result ≡ left_of_run (task_of task.now) j }
{
    if p == usize::from(j.position) {
        return j.left;
    }
    task.full_at(p)
}

// The ticks from a release to the end of tick t.
fn response(t: u16, release: u16) -> u16
    requires { t < 65535 }
    ensures { result ≡ t + 1 - release }
{
    (t + 1).saturating_sub(release)
}

// The record of the job that runs.
#[tactic(auto, unfolding(rules::specs::Tick::advanced, rules::specs::Tick::behind_unlocks, rules::specs::Tick::next_run, rules::specs::Record::ahead))]
fn advanced(t: u16, task: &Task, r: TaskRecord) -> TaskRecord
    requires counts_below { CountsBelow 65535 r.counts }
    requires t_bound { t < 65535 }
    ensures { result ≡ advanced t (task_of task.now) r }
{
    let j = r.job;
    let p = past(task, usize::from(j.position), Step::is_lock);
    let left = left_of_run(task, j, p);
    if 1 < left {
        let job = record::moved_to(p as u8, left - 1, j);
        return TaskRecord { job, ..r };
    }
    let next = past(task, p + 1, Step::is_unlock);
    if next < task.count() {
        let job = record::moved_to(next as u8, task.full_at(next), j);
        return TaskRecord { job, ..r };
    }
    let counts = record::completed(response(t, j.release), r.counts);
    TaskRecord {
        job: record::no_job(),
        counts,
    }
}

// Rule 6, first half: the runner's record, with its ticks run.
fn ran(t: u16, task: &Task, r: TaskRecord) -> TaskRecord
    requires counts_below { CountsBelow 65535 r.counts }
    requires t_bound { t < 65535 }
    ensures { (i : ℕ) → result ≡ spent (Rank i) t i (task_of task.now) r }
{
    let a = advanced(t, task, r);
    let counts = record::up(Count::TicksRun, a.counts);
    TaskRecord { counts, ..a }
}

// A rank past the last one has no steps. (Apart, since the room that a task takes is paid for at each call.)
#[cold]
#[inline(never)]
#[tactic(auto, using(crate::proofs::Laws::without_steps))]
fn ran_without_steps(t: u16, r: TaskRecord) -> TaskRecord
    requires counts_below { CountsBelow 65535 r.counts }
    requires t_bound { t < 65535 }
    ensures { (i : ℕ) → result ≡ spent (Rank i) t i no_task r }
{
    ran(t, &Task::new(1, 0), r)
}

// Rule 6, second half: the pending jobs of smaller rank than the runner are blocked for this tick.
fn blocked_above(x: usize, records: &mut [TaskRecord; 16])
    requires { AllBelow 65535 records.old }
    ensures { records.new ≡ each_blocked x records.old }
{
    for r in &mut records[..x.min(16)] {
        if r.job.pending {
            *r = record::was_blocked(*r);
        }
    }
}

// The state after the runner's tick; where nobody runs it stays. Records behind the runner's are not looked at.
pub fn after_runner(table: &Table, x: Runner, mut st: State) -> State
    requires all_below { AllBelow 65535 st.tasks }
    requires t_bound { st.t < 65535 }
    ensures { result ≡ with_tasks st (after_runner x (sheet_of table.now) st.t st.tasks) }
{
    let Runner::Rank(rank) = x else {
        return st;
    };
    let i = usize::from(rank);
    blocked_above(i, &mut st.tasks);
    if i < st.tasks.len() {
        let r = st.tasks[i];
        st.tasks[i] = match table.tasks().get(i) {
            Some(task) => ran(st.t, task, r),
            None => ran_without_steps(st.t, r),
        };
    }
    st
}

// Rule 7: the job that ran last, once the runner has run; where nobody runs it stays. It is asked before the runner's tick, in
// which the job may complete.
#[tactic(auto, unfolding(rules::specs::Tick::ran_last, rules::specs::Record::record_at))]
pub fn ran_last(x: Runner, st: State) -> LastJob
    ensures { result ≡ ran_last x st.tasks st.last }
{
    match x {
        Runner::Rank(rank) => {
            let release = st.tasks.get(usize::from(rank)).map_or(0, |r| r.job.release);
            record::last_job(rank, release)
        }
        Runner::Stuck | Runner::Idle => st.last,
    }
}

fn switches_after(switches: u16, before: LastJob, last: LastJob) -> u16
    requires { switches < 65535 }
    ensures { result ≡ (if same_job last before then switches else switches + 1) }
{
    if record::same_job(last, before) {
        return switches;
    }
    switches + 1
}

// The state at the end of its tick, with the job that ran last.
#[tactic(auto, unfolding(rules::specs::Tick::closed))]
pub fn closed(last: LastJob, mut st: State) -> State
    requires t_bound { st.t < 65535 }
    requires switches_bound { st.switches < 65535 }
    ensures { result ≡ closed st last st.tasks }
{
    st.switches = switches_after(st.switches, st.last, last);
    st.last = last;
    st.t += 1;
    st
}

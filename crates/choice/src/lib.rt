// The choice of the runner: rules 2 to 4 of document 01.
#![tactic(auto)]

ghost use Rattle.std.specs.Prelude.{◌≡◌, List, [], false, ℕ, ◌≤◌, ◌<◌, length, take, MatchOption};
ghost use Rattle.rules.specs.Words.{any, row};
ghost use Rattle.rules.specs.Sheet.{is_run, is_lock};
ghost use Rattle.rules.specs.Record.{record_at};
ghost use Rattle.rules.specs.Choice.{ceiling, goes, top_job, walk, runner};
ghost use Rattle.table.specs.Tasks.{task_of};
ghost use Rattle.holders.specs.Holders.{holders};
ghost use Rattle.choice.specs.Choosable.{Choosable};
ghost use Rattle.choice.specs.Way.{nearer, nearest, bars};

use holders::{Plan, holders_of};
use rules::{Job, Runner, State};
use table::{Step, Task};

// The semaphore in a job's way: its ceiling and the job that holds it.
#[derive(Clone, Copy, PartialEq, Eq, Debug)]
pub struct Way {
    pub ceiling: u8,
    pub holder: u8,
}

impl Way {
    // Rule 2: free is smaller than the ceiling, equal waits.
    fn bars(self, rank: u8) -> bool
        ensures { result ≡ bars rank self }
    {
        self.ceiling <= rank
    }
}

// What is in the way of job i: a semaphore with ceiling c and holder h, or what was so far.
#[tactic(auto, unfolding(crate::specs::Way::nearer, crate::specs::Way::by_other))]
fn nearer_of(i: u8, c: u8, h: u8, way: Option<Way>) -> Option<Way>
    ensures { result ≡ nearer i c h way }
{
    if h == 255 || h == i {
        return way;
    }
    match way {
        Some(w) if w.ceiling <= c => way,
        _ => Some(Way {
            ceiling: c,
            holder: h,
        }),
    }
}

// What is in the way of job i, among the semaphores of the sheet.
#[tactic(auto, unfolding(crate::specs::Way::nearest))]
fn way_of(plan: &Plan, hs: [u8; 16], i: u8) -> Option<Way>
    ensures { result ≡ nearest i (row 16 (ceiling plan.now)) hs plan.now.semaphores }
{
    let m = usize::from(plan.table().semaphores());
    let cs = plan.ceilings();
    cs.iter()
        .zip(hs.iter())
        .take(m)
        .fold(None, |way, (c, h)| nearer_of(i, *c, *h, way))
}

// Does a run lie before a position?
fn runs_before(task: &Task, p: usize) -> bool
    ensures { result ≡ any is_run (take p (task_of task.now).steps) }
{
    task.steps().iter().take(p).any(|x| Step::from(*x).is_run())
}

// Has a task's program a lock?
fn has_lock(task: &Task) -> bool
    ensures { result ≡ any is_lock (task_of task.now).steps }
{
    task.steps().iter().any(|x| Step::from(*x).is_lock())
}

// Rule 3 of a job that is not free of ceilings: it goes where it stands at a run, unless mode 1 holds it back, fresh and
// with a lock in its program.
#[tactic(auto, using(crate::proofs::Steps::goes_behind))]
fn goes_barred(mode: u8, task: &Task, j: Job) -> bool
    ensures { result ≡ goes mode (task_of task.now) j false }
{
    let position = usize::from(j.position);
    let Some(x) = task.step_at(position) else {
        return false;
    };
    x.is_run()
        && (mode != 1 || j.left != x.ticks() || runs_before(task, position) || !has_lock(task))
}

// Rule 4: the pending job of smallest rank, if one is.
fn top_job(n: usize, st: &State) -> Option<u8>
    requires n_bound { n ≤ 16 }
    requires by_index { (i : ℕ) → i < 16 → n ≤ i → (record_at st.now.tasks i).job.pending ≡ false }
    ensures { MatchOption result (top_job st.now.tasks ≡ 255) (λ i. (i ≡ top_job st.now.tasks) × (i < n)) }
{
    st.tasks[..n]
        .iter()
        .position(|r| r.job.pending)
        .map(|i| i as u8)
}

// The first candidate that may go, from one on; nobody where a candidate comes round again.
fn walked(plan: &Plan, hs: [u8; 16], st: &State, from: u8) -> Runner
    requires hs_value { hs ≡ holders plan.now st.now.tasks }
    requires choosable { Choosable plan.now st.now.tasks }
    requires from_bound { from < length plan.now.tasks }
    ensures { result ≡ walk plan.now st.now.tasks 16 [] from }
{
    let table = plan.table();
    let mode = table.mode();
    let mut c = from;
    'walk: for _ in 0..16u8 {
        let i = usize::from(c);
        let task = table.task(i);
        if goes_barred(mode, task, st.tasks[i].job) {
            return Runner::Rank(c);
        }
        match way_of(plan, hs, c) {
            Some(way) if way.bars(c) => c = way.holder,
            _ => return Runner::Rank(c),
        }
    }
    Runner::Stuck
}

// The runner of a tick, from the state after its releases. The holders are asked for only where the pending job of smallest rank
// does not go in any case. The state is read where it stands: a copy for each function would take a good part of the tick.
// Choosable stays a clause: it is true of a plan and a state at one moment of the tick, and a type for it would be made in both
// public functions only to be taken apart in this one.
fn chosen<F: FnOnce(&Plan) -> [u8; 16]>(plan: &Plan, st: &State, find_holders: F) -> Runner
    requires callable { F.IsAlwaysCallable find_holders }
    requires hs_value { (hs : List ℕ) → F.post find_holders plan hs → hs ≡ holders plan.now st.now.tasks }
    requires choosable { Choosable plan.now st.now.tasks }
    ensures { result ≡ runner plan.now st.now.tasks }
{
    let table = plan.table();
    let Some(top) = top_job(table.len(), st) else {
        return Runner::Idle;
    };
    let i = usize::from(top);
    let task = table.task(i);
    if goes_barred(table.mode(), task, st.tasks[i].job) {
        return Runner::Rank(top);
    }
    let hs = find_holders(plan);
    walked(plan, hs, st, top)
}

// The runner of a tick, with the holders at hand,
pub fn runner_with(plan: &Plan, hs: [u8; 16], st: State) -> Runner
    requires hs_value { hs ≡ holders plan.now st.tasks }
    requires choosable { Choosable plan.now st.tasks }
    ensures { result ≡ runner plan.now st.tasks }
{
    chosen(
        plan,
        &st,
        |_|
            ensures { result ≡ hs }
        { hs },
    )
}

// and with none.
pub fn runner_of(plan: &Plan, st: State) -> Runner
    requires { Choosable plan.now st.tasks }
    ensures { result ≡ runner plan.now st.tasks }
{
    chosen(
        plan,
        &st,
        |plan|
            ensures { result ≡ holders plan.now st.tasks }
        { holders_of(plan.table(), st) },
    )
}

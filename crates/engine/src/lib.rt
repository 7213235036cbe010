// One tick of a possible state, and a whole run from the start.
#![tactic(auto)]

ghost use Rattle.std.specs.Prelude.{◌≡◌, true, ℕ, ◌+◌, ◌<◌, ◌≤◌, length};
ghost use Rattle.rules.specs.Sheet.{Sheet};
ghost use Rattle.rules.specs.Fields.{start, with_tasks};
ghost use Rattle.rules.specs.Record.{possible};
ghost use Rattle.rules.specs.Tick.{after_releases, after_runner, runner_of, tick};
ghost use Rattle.rules.specs.Run.{after, written};
ghost use Rattle.rules.specs.declared.Runner.TheVariants.{Rank};
ghost use Rattle.table.specs.Table.{Accepted, sheet_of};
ghost use Rattle.record.specs.Room.{AllBelow};
ghost use Rattle.effect.specs.Effect.{Quiet};
ghost use Rattle.engine.specs.AtHand.{AtHand, Ready, after_runner_tick};

use holders::Plan;
use rules::{Runner, State};
use table::Table;

// What one tick gives: who ran, and the next state.
#[derive(Clone, Copy, PartialEq, Eq, Debug)]
pub struct OneTick {
    pub runner: Runner,
    pub state: State,
}

// The sheet of a plan is accepted.
fn sheet_accepted(plan: &Plan)
    ensures { Accepted plan.now }
{
    plan.table().tasks();
}

// One tick: the releases, the choice of the runner, and what is done with it.
pub fn tick_of(plan: &Plan, st: State) -> OneTick
    requires st_value { possible plan.now st ≡ true }
    requires t_bound { st.t < 60000 }
    ensures runner_value { result.runner ≡ runner_of plan.now st }
    ensures state_value { result.state ≡ tick plan.now st }
{
    sheet_accepted(plan);
    let table = plan.table();
    let released = effect::after_releases(table, st);
    let runner = choice::runner_of(plan, released);
    let last = effect::ran_last(runner, released);
    let ran = effect::after_runner(table, runner, released);
    let state = effect::closed(last, ran);
    OneTick { runner, state }
}

// A run on its way. At hand it keeps the holders, and a tick before which no task has a release, so that most ticks look for
// neither. The state changes where it stands: handed from function to function at each tick, its copies would take most of the
// time.
#[derive(Drop)]
struct Run {
    state: State,
    holders: [u8; 16],
    due: u32,
}

impl Run {
    fn start() -> Run
        ensures state_value { result.state ≡ start }
        ensures at_hand { (sheet : Sheet) → AtHand sheet result }
    {
        Run {
            state: record::start(),
            holders: [255; 16],
            due: 0,
        }
    }

    // The releases of its tick, if there may be any.
    fn release(&mut self, table: &Table)
        requires sized { length self.old.state.tasks ≡ 16 }
        requires all_below { AllBelow 65535 self.old.state.tasks }
        requires quiet { Quiet self.old.state.t self.old.due (sheet_of table.now) }
        ensures state_value { self.new.state ≡ with_tasks self.old.state (after_releases (sheet_of table.now) self.old.state) }
        ensures holders_stay { self.new.holders ≡ self.old.holders }
        ensures quiet { Quiet (self.old.state.t + 1) self.new.due (sheet_of table.now) }
    {
        let t = self.state.t;
        if self.due <= u32::from(t) {
            self.state = effect::after_releases(table, self.state);
            self.due = effect::quiet_until(table, t);
        }
    }

    // The runner's tick.
    fn spend(&mut self, table: &Table, x: Runner)
        requires runner_bound { (i : ℕ) → x ≡ Rank i → i < length (sheet_of table.now).tasks }
        requires sized { length self.old.state.tasks ≡ 16 }
        requires all_below { AllBelow 65535 self.old.state.tasks }
        requires t_bound { self.old.state.t < 65535 }
        ensures state_value { self.new.state ≡ with_tasks self.old.state (after_runner x (sheet_of table.now) self.old.state.t self.old.state.tasks) }
        ensures holders_value { self.new.holders ≡ after_runner_tick x (sheet_of table.now) self.old.state.tasks self.new.state.tasks self.old.holders }
        ensures due_stays { self.new.due ≡ self.old.due }
    {
        if let Runner::Rank(rank) = x {
            let i = usize::from(rank);
            let task = table.task(i);
            let before = self.state.tasks[i].job;
            self.state = effect::after_runner(table, x, self.state);
            let after = self.state.tasks[i].job;
            let held = holders::holders_after(task.steps(), rank, before, after, self.holders);
            self.holders = held;
        }
    }

    // One tick.
    fn tick(&mut self, plan: &Plan) -> Runner
        requires ready { Ready plan.now self.old.state }
        requires at_hand { AtHand plan.now self.old }
        ensures runner_value { result ≡ runner_of plan.now self.old.state }
        ensures state_value { self.new.state ≡ tick plan.now self.old.state }
        ensures at_hand { AtHand plan.now self.new }
    {
        let table = plan.table();
        self.release(table);
        let runner = choice::runner_with(plan, self.holders, self.state);
        let last = effect::ran_last(runner, self.state);
        self.spend(table, runner);
        self.state = effect::closed(last, self.state);
        runner
    }
}

// A whole run of h ticks from the start, one runner byte per tick into the first h bytes of the trace; later bytes stay.
pub fn run_of(plan: &Plan, h: u16, trace: &mut [u8]) -> State
    requires h_bound { h ≤ 60000 }
    requires h_in_bounds { h ≤ length trace.old }
    ensures value { result ≡ after h plan.now start }
    ensures trace_after { trace.new ≡ written h plan.now start trace.old }
{
    sheet_accepted(plan);
    let end = usize::from(h);
    let mut run = Run::start();
    for byte in &mut trace[..end] {
        *byte = u8::from(run.tick(plan));
    }
    run.state
}

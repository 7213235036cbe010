// The tasks of a table.
#![tactic(auto, unfolding(crate::specs::Tasks::task_of))]

ghost use Rattle.std.specs.Prelude.{◌≡◌, ◌≤◌, [], length, drop, map};
ghost use Rattle.rules.specs.Choice.{full};
ghost use Rattle.rules.specs.Laws.{All, StepLimits};
ghost use Rattle.table.specs.Steps.{said, here};
ghost use Rattle.table.specs.Limits.{steps_prop};

use crate::{Step, step_at};

// A task: its period is at least 1, and its steps, which stand in the sheet's bytes, keep document 01's limits.
#[derive(Clone, Copy)]
pub struct Task<'a> {
    period: u16,
    offset: u16,
    steps: &'a [[u8; 3]],
    ghost at_least_one: { 1 ≤ period },
    ghost few: { length steps.now ≤ 64 },
    ghost limits: { All (StepLimits 16) (map said steps.now) } by { steps_prop 16 (map said steps.now) },
}

// What stands in a place that no task has been put in yet.
impl Default for Task<'_> {
    fn default() -> Self {
        Task::new(1, 0)
    }
}

impl<'a> Task<'a> {
    ghost use Rattle.table.specs.Tasks.{task_of};

    // A task that has no steps yet.
    pub fn new(period: u16, offset: u16) -> Task<'a>
        requires { 1 ≤ period }
        ensures { task_of result ≡ record { period = period; offset = offset; steps = [] } }
    {
        Task::of_steps(period, offset, &[])
    }

    // A task of these steps.
    pub fn of_steps(period: u16, offset: u16, steps: &'a [[u8; 3]]) -> Task<'a>
        requires at_least_one { 1 ≤ period }
        requires few { length steps.now ≤ 64 }
        requires limits { All (StepLimits 16) (map said steps.now) }
        ensures { task_of result ≡ record { period = period; offset = offset; steps = map said steps.now } }
    {
        Task {
            period,
            offset,
            steps,
        }
    }

    pub fn period(&self) -> u16
        ensures value { result ≡ (task_of self.now).period }
        ensures at_least_one { 1 ≤ result }
    {
        self.period
    }

    pub fn offset(&self) -> u16
        ensures { result ≡ (task_of self.now).offset }
    {
        self.offset
    }

    // Its steps, as they stand in the sheet.
    pub fn steps(&self) -> &'a [[u8; 3]]
        ensures value { map said result.now ≡ (task_of self.now).steps }
        ensures few { length result.now ≤ 64 }
        ensures limits { All (StepLimits 16) (task_of self.now).steps }
    {
        self.steps
    }

    // How many steps it has.
    pub fn count(&self) -> usize
        ensures value { result ≡ length (task_of self.now).steps }
        ensures few { result ≤ 64 }
    {
        self.steps.len()
    }

    // The step at a position, if one stands there.
    pub fn step_at(&self, p: usize) -> Option<Step>
        ensures { result ≡ here (drop p (task_of self.now).steps) }
    {
        step_at(self.steps, p)
    }

    // The ticks left on coming to a position: a run's full length, else 0.
    #[tactic(auto, using(crate::proofs::Steps::full_here))]
    pub fn full_at(&self, p: usize) -> u16
        ensures { result ≡ full (drop p (task_of self.now).steps) }
    {
        self.step_at(p).map_or(0, |x| x.ticks())
    }
}

// A task that has its steps itself, put in one by one.
#![tactic(auto)]

ghost use Rattle.std.specs.Prelude.{◌≡◌, ◌≤◌, ◌<◌, [], length};
ghost use Rattle.rules.specs.Laws.{StepLimits};
ghost use Rattle.table.specs.Steps.{meant};
ghost use Rattle.table.specs.Table.{with_step};
ghost use Rattle.table.specs.Tasks.{task_of};

use crate::{Step, Task};
use arrayvec::ArrayVec;
use std::marker::Model;

// The steps stand as they would in a sheet, so that `task` can lend them.
#[derive(Drop)]
pub struct OwnTask {
    period: u16,
    offset: u16,
    steps: ArrayVec<[u8; 3], 64>,
}

impl Model for OwnTask {
    ghost use Rattle.std.specs.Prelude.{◌≤◌, map};
    ghost use Rattle.rules.specs.Sheet.{Task as Rules·Task};
    ghost use Rattle.rules.specs.Laws.{All, StepLimits};
    ghost use Rattle.table.specs.Steps.{said};

    ghost Value = { Rules·Task };

    ghost view = { λ t. record { period = t.period; offset = t.offset; steps = map said t.steps.items } };

    ghost invariant = { λ t. (1 ≤ t.period) × All (StepLimits 16) (map said t.steps.items) };
}

// What stands in a place that no task has been put in yet.
impl Default for OwnTask {
    fn default() -> OwnTask
        ensures { result ≡ record { period = 1; offset = 0; steps = [] } }
    {
        OwnTask::new(1, 0)
    }
}

impl OwnTask {
    // A task that has no steps yet.
    pub fn new(period: u16, offset: u16) -> OwnTask
        requires { 1 ≤ period }
        ensures { result ≡ record { period = period; offset = offset; steps = [] } }
    {
        OwnTask {
            period,
            offset,
            steps: ArrayVec::new(),
        }
    }

    // One step more.
    pub fn push(&mut self, step: Step)
        requires room { length self.old.steps < 64 }
        requires limits { StepLimits 16 (meant step) }
        ensures { self.new ≡ with_step self.old (meant step) }
    {
        self.steps.push(<[u8; 3]>::from(step));
    }

    // The task, with the steps that stand here.
    pub fn task(&self) -> Task<'_>
        ensures { task_of result ≡ self.now }
    {
        Task::of_steps(self.period, self.offset, self.steps.as_slice())
    }
}

// The loads of a sheet's tasks.

ghost use Rattle.std.specs.Prelude.{◌≡◌, ◌^◌, ◌<◌, ◌≤◌, map};
ghost use Rattle.rules.specs.Bounds.{cost};
ghost use Rattle.table.specs.Table.{sheet_of};
ghost use Rattle.table.specs.Tasks.{task_of};

use arrayvec::ArrayVec;
use bounds::cost_of;
use table::{Table, Task};

// What a task adds to a demand: C in each of its periods.
#[derive(Clone, Copy, PartialEq, Eq, Debug)]
pub struct Load {
    pub cost: u16,
    pub period: u16,
    pub ghost at_least_one: { 1 ≤ period },
    pub ghost small: { (cost < 2 ^ 16) × (period < 2 ^ 16) },
}

// What stands in a place that no load has been put in yet. (Not derived: a period of 0 is none.)
impl Default for Load {
    fn default() -> Load {
        Load { cost: 0, period: 1 }
    }
}

impl From<&Task<'_>> for Load {
    ghost from_gives = { λ task load. (load.cost ≡ cost (task_of task.now)) × (load.period ≡ (task_of task.now).period) };

    fn from(task: &Task<'_>) -> Load {
        Load {
            cost: cost_of(task),
            period: task.period(),
        }
    }
}

// The load of each task, by rank.
pub fn loads_of(table: &Table) -> ArrayVec<Load, 16>
    ensures costs { map (λ x. x.cost) result.items ≡ map cost (sheet_of table.now).tasks }
    ensures periods { map (λ x. x.period) result.items ≡ map (λ task. task.period) (sheet_of table.now).tasks }
{
    let mut loads = ArrayVec::new();
    for task in table.tasks() {
        loads.push(Load::from(task));
    }
    loads
}

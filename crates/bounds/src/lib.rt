// C, the sections and the bounds of a sheet's tasks, proved equal to rules/specs/Bounds.antt.
#![tactic(auto)]

ghost use Rattle.std.specs.Prelude.{◌≡◌, ◌+◌, ◌^◌, ◌<◌, drop, length, map};
ghost use Rattle.rules.specs.Bounds.{runs, inside, bound, bound_by, cost};
ghost use Rattle.rules.specs.Answers.{by_rank, bound_of, no_bound};
ghost use Rattle.table.specs.Steps.{said};
ghost use Rattle.table.specs.Tasks.{task_of};
ghost use Rattle.bounds.specs.Sections.{counted_section, longest_section, first_giving};

use holders::Plan;
use rules::{Bound, Section};
use std::array;
use table::{Step, Task};

// The sum of the runs among steps.
fn runs(steps: &[[u8; 3]]) -> u16
    requires { runs (map said steps.now) < 2 ^ 16 }
    ensures { result ≡ runs (map said steps.now) }
{
    steps.iter().map(|x| Step::from(*x).ticks()).sum()
}

// C is the sum of a task's runs.
#[tactic(auto, using(crate::proofs::Steps::runs_fit), unfolding(rules::specs::Bounds::cost))]
pub fn cost_of(task: &Task) -> u16
    ensures { result ≡ cost (task_of task.now) }
{
    runs(task.steps())
}

// What stands inside a section of semaphore u: the steps behind its lock up to the unlock.
fn inside(u: u16, steps: &[[u8; 3]]) -> &[[u8; 3]]
    ensures { map said result.now ≡ inside u (map said steps.now) }
{
    let end = steps
        .iter()
        .position(|x| Step::from(*x) == Step::Unlock(u))
        .unwrap_or(steps.len());
    &steps[..end]
}

// The length of the section that begins at a position, if its semaphore has a ceiling of at most i.
fn counted_section(plan: &Plan, task: &Task, i: usize, k: usize) -> Option<u16>
    ensures { result ≡ counted_section plan.now i (drop k (task_of task.now).steps) }
{
    let steps = task.steps();
    let bytes = steps.get(k)?;
    let Step::Lock(u) = Step::from(*bytes) else {
        return None;
    };
    let ceiling = plan.ceilings()[usize::from(u)];
    if usize::from(ceiling) <= i {
        return Some(runs(inside(u, &steps[k + 1..])));
    }
    None
}

// The longest of a task's sections that the bound of task i counts; 0 if none.
fn longest_section(plan: &Plan, task: &Task, i: usize) -> u16
    ensures { result ≡ longest_section plan.now i (task_of task.now).steps }
{
    let mut longest = 0;
    for k in 0..task.count() {
        longest = longest.max(counted_section(plan, task, i, k).unwrap_or(0));
    }
    longest
}

// The bound B of task i: over the tasks of greater rank.
fn bound_ticks(plan: &Plan, i: usize) -> u16
    requires { i < length plan.now.tasks }
    ensures { result ≡ bound plan.now i }
{
    let mut longest = 0;
    for task in &plan.table().tasks()[i + 1..] {
        longest = longest.max(longest_section(plan, task, i));
    }
    longest
}

// The first lock step of a task whose section gives a bound of so many ticks to task i, if one does.
fn giving_step(plan: &Plan, task: &Task, i: usize, ticks: u16) -> Option<u8>
    ensures { result ≡ first_giving plan.now i ticks (task_of task.now).steps }
{
    let count = task.count() as u8;
    (0..count).find(|k| counted_section(plan, task, i, usize::from(*k)) == Some(ticks))
}

// What gives the bound of task i: the first section of that length, by rank and then by step.
fn bound_by(plan: &Plan, i: usize, ticks: u16) -> Option<Section>
    requires rank { i < length plan.now.tasks }
    requires value { ticks ≡ bound plan.now i }
    ensures { result ≡ bound_by plan.now i }
{
    let table = plan.table();
    let n = table.len();
    for rank in i + 1..n {
        if let Some(step) = giving_step(plan, table.task(rank), i, ticks) {
            return Some(Section {
                rank: rank as u8,
                step,
            });
        }
    }
    None
}

// The bound of task i, and what gives it.
#[tactic(auto, unfolding(rules::specs::Answers::bound_of))]
fn bound_of(plan: &Plan, i: usize) -> Bound
    requires { i < length plan.now.tasks }
    ensures { result ≡ bound_of plan.now i }
{
    let ticks = bound_ticks(plan, i);
    let by = bound_by(plan, i, ticks);
    Bound { ticks, by }
}

// The bound of each task; zero and by nothing behind them.
pub fn bounds_of(plan: &Plan) -> [Bound; 16]
    ensures { result ≡ by_rank no_bound bound_of plan.now }
{
    let n = plan.table().len();
    array::from_fn(|i| if i < n {
        bound_of(plan, i)
    } else {
        Bound::default()
    })
}

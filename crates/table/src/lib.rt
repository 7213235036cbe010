// The table of a sheet: its head and its tasks, whose steps stand in the sheet's bytes, three for each. A clause says document 01's
// sheet and task by `sheet_of` and `task_of`.
#![tactic(auto)]

mod own_task;
mod task;
#[cfg(test)]
mod tests;

ghost use Rattle.std.specs.Prelude.{◌≡◌, ◌<◌, ◌≤◌, [], ◌∷◌, length, drop, map};
ghost use Rattle.rules.specs.Sheet.{is_run, is_lock, is_unlock, task_at};
ghost use Rattle.rules.specs.Reading.{read, read_sheet};
ghost use Rattle.rules.specs.Choice.{full};
ghost use Rattle.table.specs.Steps.{meant, said, here, semaphore_in};
ghost use Rattle.table.specs.Tasks.{task_of, sheet_with};
ghost use Rattle.table.specs.Bytes.{step_bytes, sheet_bytes};

use arrayvec::ArrayVec;
pub use own_task::OwnTask;
use rules::Head;
pub use task::Task;

// A step runs for some ticks, locks a semaphore or unlocks one.
#[derive(Clone, Copy, PartialEq, Eq, Debug)]
pub enum Step {
    Run(u16),
    Lock(u16),
    Unlock(u16),
}

// What stands in a place that no step has been put in yet.
impl Default for Step {
    fn default() -> Step
        ensures { result ≡ Step.Run 0 }
    {
        Step::Run(0)
    }
}

// The step that three bytes are: a kind, and a 16-bit number behind it.
impl From<[u8; 3]> for Step {
    ghost from_gives = { λ bytes step. meant step ≡ said bytes };

    #[tactic(auto, unfolding(crate::specs::Steps::said, rules::specs::Reading::step_of, rules::specs::Reading::word, rules::specs::Reading::byte))]
    fn from(bytes: [u8; 3]) -> Step {
        let [kind, high, low] = bytes;
        let value = u16::from_be_bytes([high, low]);
        match kind {
            1 => Step::Run(value),
            2 => Step::Lock(value),
            _ => Step::Unlock(value),
        }
    }
}

// The three bytes of a step, which are read as it.
impl From<Step> for [u8; 3] {
    ghost from_gives = { λ step bytes. (bytes ≡ step_bytes (meant step)) × (said bytes ≡ meant step) };

    #[tactic(auto, unfolding(crate::specs::Bytes::step_bytes, crate::specs::Bytes::big, crate::specs::Steps::said, rules::specs::Reading::step_of, rules::specs::Reading::word, rules::specs::Reading::byte))]
    fn from(step: Step) -> [u8; 3] {
        let (kind, value) = match step {
            Step::Run(n) => (1, n),
            Step::Lock(s) => (2, s),
            Step::Unlock(s) => (3, s),
        };
        let [high, low] = value.to_be_bytes();
        [kind, high, low]
    }
}

impl Step {
    #[tactic(auto, using(crate::proofs::Steps::kind_is_run))]
    pub fn is_run(self) -> bool
        ensures { result ≡ is_run (meant self) }
    {
        matches!(self, Step::Run(_))
    }

    #[tactic(auto, using(crate::proofs::Steps::kind_is_lock))]
    pub fn is_lock(self) -> bool
        ensures { result ≡ is_lock (meant self) }
    {
        matches!(self, Step::Lock(_))
    }

    #[tactic(auto, using(crate::proofs::Steps::kind_is_unlock))]
    pub fn is_unlock(self) -> bool
        ensures { result ≡ is_unlock (meant self) }
    {
        matches!(self, Step::Unlock(_))
    }

    // The ticks that it runs.
    #[tactic(auto, using(crate::proofs::Steps::ticks_meant))]
    pub fn ticks(self) -> u16
        ensures { result ≡ full (meant self ∷ []) }
    {
        match self {
            Step::Run(n) => n,
            Step::Lock(_) | Step::Unlock(_) => 0,
        }
    }

    // The semaphore that it locks or unlocks.
    pub fn semaphore(self) -> Option<u16>
        ensures { result ≡ semaphore_in (meant self) }
    {
        match self {
            Step::Run(_) => None,
            Step::Lock(s) | Step::Unlock(s) => Some(s),
        }
    }
}

// The step at a position of some steps, if one stands there.
#[tactic(auto, using(crate::proofs::Steps::said_past))]
pub fn step_at(steps: &[[u8; 3]], p: usize) -> Option<Step>
    ensures { result ≡ here (drop p (map said steps.now)) }
{
    let bytes = steps.get(p)?;
    Some(Step::from(*bytes))
}

// The table of a sheet that document 01 accepts. The sheet's tasks are the first `head.n`. (The bytes are those that it was read from,
// none where it was made of tasks. No code looks at them, but a reading of a long sheet was slower without them.)
#[derive(Clone, Copy)]
pub struct Table<'a> {
    tasks: [Task<'a>; 16],
    bytes: &'a [u8],
    head: Head,
    ghost few: { head.n ≤ 16 },
    ghost sized: { length tasks ≡ 16 },
    ghost reads: { read_sheet (sheet_bytes (sheet_with head (map task_of tasks))) ≡ read (sheet_with head (map task_of tasks)) },
}

impl<'a> Table<'a> {
    ghost use Rattle.table.specs.Table.{Accepted, sheet_of};

    // The table of a mode, a semaphore count and the tasks by rank, where some bytes are read as that sheet.
    pub fn new(mode: u8, semaphores: u8, mut tasks: ArrayVec<Task<'a>, 16>) -> Table<'a>
        requires { Accepted (record { mode = mode; semaphores = semaphores; tasks = map task_of tasks.items }) }
        ensures { sheet_of result ≡ record { mode = mode; semaphores = semaphores; tasks = map task_of tasks.entry.items } }
    {
        let bytes: &[u8] = &[];
        let n = tasks.len();
        for _ in n..16 {
            tasks.push(Task::default());
        }
        // the row is full, so that the other array is never taken
        let tasks = tasks.into_inner().unwrap_or([Task::default(); 16]);
        let head = Head {
            n: n as u8,
            semaphores,
            mode,
        };
        Table { tasks, bytes, head }
    }

    // The table of these bytes, which are read as the head and as many of the tasks as it says.
    #[tactic(auto, unfolding(crate::specs::Table::sheet_of))]
    pub fn of_bytes(bytes: &'a [u8], head: Head, tasks: [Task<'a>; 16]) -> Table<'a>
        requires few { head.n ≤ 16 }
        requires reads { read_sheet bytes.now ≡ read (sheet_with head (map task_of tasks)) }
        ensures { sheet_of result ≡ sheet_with head (map task_of tasks.entry) }
    {
        Table { tasks, bytes, head }
    }

    #[tactic(auto, unfolding(crate::specs::Table::sheet_of, crate::specs::Tasks::sheet_with))]
    pub fn mode(&self) -> u8
        ensures { result ≡ (sheet_of self.now).mode }
    {
        self.head.mode
    }

    #[tactic(auto, unfolding(crate::specs::Table::sheet_of, crate::specs::Tasks::sheet_with))]
    pub fn semaphores(&self) -> u8
        ensures value { result ≡ (sheet_of self.now).semaphores }
        ensures few { result ≤ 16 }
    {
        self.head.semaphores
    }

    // How many tasks it has.
    pub fn len(&self) -> usize
        ensures value { result ≡ length (sheet_of self.now).tasks }
        ensures few { result ≤ 16 }
    {
        usize::from(self.head.n)
    }

    // The tasks by rank.
    pub fn tasks(&self) -> &[Task<'a>]
        ensures value { map task_of result.now ≡ (sheet_of self.now).tasks }
        ensures counted { length result.now ≡ length (sheet_of self.now).tasks }
        ensures few { length result.now ≤ 16 }
        ensures accepted { Accepted (sheet_of self.now) }
    {
        &self.tasks[..self.len()]
    }

    // The task of a rank.
    pub fn task(&self, i: usize) -> &Task<'a>
        requires { i < length (sheet_of self.now).tasks }
        ensures value { task_of result.now ≡ task_at (sheet_of self.now) i }
        ensures accepted { Accepted (sheet_of self.now) }
    {
        &self.tasks()[i]
    }
}

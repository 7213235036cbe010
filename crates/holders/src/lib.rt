// Rule 2's arrays of sixteen, one entry per semaphore: who holds it, and its ceiling. An entry stays a number, 255 for nobody, and
// no option: document 01's `ceiling` says so, and the call `ceilings` answers it.
#![tactic(auto)]

ghost use Rattle.std.specs.Prelude.{◌≡◌, ◌-◌, take, drop, map};
ghost use Rattle.rules.specs.Words.{row};
ghost use Rattle.rules.specs.Sheet.{Task as Rules·Task};
ghost use Rattle.rules.specs.Choice.{ceiling};
ghost use Rattle.table.specs.Steps.{meant, said};
ghost use Rattle.table.specs.Table.{sheet_of};
ghost use Rattle.holders.specs.Holders.{holders, after_step, after_steps, after_tick};

use rules::{Job, State};
use std::marker::Model;
use table::{Step, Table};

// A step of rank i: a lock takes what nobody has, an unlock gives back what is its own. A semaphore past the sixteenth has no entry.
#[tactic(auto, using(crate::proofs::Steps::step_by))]
fn pass_step(x: Step, i: u8, hs: &mut [u8; 16])
    ensures { hs.new ≡ after_step i (meant x) hs.old }
{
    match x {
        Step::Lock(s) if s < 16 => {
            if hs[s as usize] == 255 {
                hs[s as usize] = i;
            }
        }
        Step::Unlock(s) if s < 16 => {
            if hs[s as usize] == i {
                hs[s as usize] = 255;
            }
        }
        _ => {}
    }
}

// The steps of rank i from one position to another.
fn pass(steps: &[[u8; 3]], from: usize, to: usize, i: u8, hs: &mut [u8; 16])
    ensures { hs.new ≡ after_steps i (take (to - from) (drop from (map said steps.now))) hs.old }
{
    let end = to.min(steps.len());
    for x in &steps[from.min(end)..end] {
        pass_step(Step::from(*x), i, hs);
    }
}

// The same, of the entries by value.
pub fn after_steps(steps: &[[u8; 3]], from: usize, to: usize, i: u8, mut hs: [u8; 16]) -> [u8; 16]
    ensures { result ≡ after_steps i (take (to - from) (drop from (map said steps.now))) hs }
{
    pass(steps, from, to, i, &mut hs);
    hs
}

// The holder of each semaphore, 255 if none.
pub fn holders_of(table: &Table, st: State) -> [u8; 16]
    ensures { result ≡ holders (sheet_of table.now) st.tasks }
{
    let mut hs = [255; 16];
    for (i, task) in table.tasks().iter().enumerate() {
        let j = st.tasks[i].job;
        if j.pending {
            pass(task.steps(), 0, j.position as usize, i as u8, &mut hs);
        }
    }
    hs
}

// The holders after the tick of a runner of rank i, from its steps, the holders before it and its job before and after.
#[tactic(auto, unfolding(crate::specs::Holders::after_tick, crate::specs::Holders::reached))]
pub fn holders_after(steps: &[[u8; 3]], i: u8, before: Job, after: Job, hs: [u8; 16]) -> [u8; 16]
    ensures { (task : Rules·Task) → task.steps ≡ map said steps.now → result ≡ after_tick i task before after hs }
{
    let to = if after.pending {
        after.position as usize
    } else {
        steps.len()
    };
    after_steps(steps, before.position as usize, to, i, hs)
}

// The ceiling of each semaphore: the smallest rank that has a lock of it; 255 if none.
pub fn ceilings_of(table: &Table) -> [u8; 16]
    ensures { result ≡ row 16 (ceiling (sheet_of table.now)) }
{
    let mut cs = [255; 16];
    for (i, task) in table.tasks().iter().enumerate() {
        for x in task.steps() {
            let step = Step::from(*x);
            // a lock takes what no smaller rank has
            if step.is_lock() {
                pass_step(step, i as u8, &mut cs);
            }
        }
    }
    cs
}

// A table with its ceilings.
#[derive(Drop)]
pub struct Plan<'a> {
    table: Table<'a>,
    ceilings: [u8; 16],
}

impl<'a> Model for Plan<'a> {
    ghost use Rattle.std.specs.Prelude.{◌≡◌};
    ghost use Rattle.rules.specs.Sheet.{Sheet};
    ghost use Rattle.rules.specs.Words.{row};
    ghost use Rattle.rules.specs.Choice.{ceiling};
    ghost use Rattle.table.specs.Table.{sheet_of};

    ghost Value = { Sheet };

    ghost view = { λ p. sheet_of p.table };

    ghost invariant = { λ p. p.ceilings ≡ row 16 (ceiling (sheet_of p.table)) };
}

impl<'a> Plan<'a> {
    pub fn new(table: Table<'a>) -> Plan<'a>
        ensures { result ≡ sheet_of table.entry }
    {
        let ceilings = ceilings_of(&table);
        Plan { table, ceilings }
    }

    pub fn table(&self) -> &Table<'a>
        ensures { sheet_of result.now ≡ self.now }
    {
        &self.table
    }

    pub fn ceilings(&self) -> [u8; 16]
        ensures { result ≡ row 16 (ceiling self.now) }
    {
        self.ceilings
    }
}

// THE PUBLIC FACE: every call, for any input, with no `requires`. The contract of each is one definition of
// crates/rules/specs/Promises.antt, said of the answer by its tie in Coded.antt, and the theorems cite both; a refused call gives
// its refusal alone, and leaves what was lent as it was.
#![tactic(auto, unfolding(crate::proofs::Open::answers))]

ghost use Rattle.std.specs.Prelude.{◌≡◌, if◌then◌else◌, length, Ok, Err};
ghost use Rattle.rules.specs.Words.{◌<?◌};
ghost use Rattle.rules.specs.declared.Refusal.TheVariants.{Horizon, Buffer};
ghost use Rattle.rules.specs.Reading.{read_sheet};
ghost use Rattle.rules.specs.Answers.{read_tick};
ghost use Rattle.rules.specs.Promises.{start_contract, check_contract, ceilings_contract, bounds_contract, laxities_contract, tick_contract, tick_in_place_contract, run_contract};
ghost use Rattle.rules.specs.Coded.{reading, checked, ceilings_in, bounds_in, laxities_in, told_in, ticked_in, ran_in};

use engine::OneTick;
use holders::Plan;
use rules::{AfterTick, Bound, Head, Laxity, Refusal, Runner, State};

// The record of a run at its start, for calls of `tick`.
pub fn start() -> State
    ensures { start_contract result }
{
    record::start()
}

// The sheet check: how many tasks and semaphores, and the mode.
pub fn check(s: &[u8]) -> Result<Head, Refusal>
    ensures { check_contract s.now (checked result) }
{
    let table = sheet::read_sheet(s)?;
    Ok(Head {
        n: table.len() as u8,
        semaphores: table.semaphores(),
        mode: table.mode(),
    })
}

// A sheet that is read, with its ceilings.
fn sheet_plan(s: &[u8]) -> Result<Plan<'_>, Refusal>
    ensures { reading (λ plan. plan) result ≡ read_sheet s.now }
{
    let table = sheet::read_sheet(s)?;
    Ok(Plan::new(table))
}

// The ceiling of each semaphore.
pub fn ceilings(s: &[u8]) -> Result<[u8; 16], Refusal>
    ensures { ceilings_contract s.now (ceilings_in result) }
{
    let plan = sheet_plan(s)?;
    Ok(plan.ceilings())
}

// The bound of each task, and what gives it.
pub fn bounds(s: &[u8]) -> Result<[Bound; 16], Refusal>
    ensures { bounds_contract s.now (bounds_in result) }
{
    let plan = sheet_plan(s)?;
    Ok(bounds::bounds_of(&plan))
}

// The laxity of each task.
pub fn laxities(s: &[u8]) -> Result<[Laxity; 16], Refusal>
    ensures { laxities_contract s.now (laxities_in result) }
{
    let plan = sheet_plan(s)?;
    Ok(analysis::laxities_of(&plan))
}

// The sheet of a call with a state: 16, then 17.
fn tick_plan(s: &[u8], st: State) -> Result<Plan<'_>, Refusal>
    ensures { reading (λ plan. plan) result ≡ read_tick s.now st }
{
    let table = sheet::read_sheet(s)?;
    if !possible::possible_state(&table, st) {
        return Err(Refusal::Impossible);
    }
    if st.t == 60000 {
        return Err(Refusal::Ended);
    }
    Ok(Plan::new(table))
}

// One tick of a state that is handed over by value; turned away, it comes back.
#[tactic(auto, using(crate::proofs::Ticks::no_later, crate::proofs::Ticks::told_runner), unfolding(crate::proofs::Open::answers))]
pub fn tick(s: &[u8], st: State) -> AfterTick
    ensures { tick_contract s.now st (ticked_in result) }
{
    match tick_plan(s, st) {
        Ok(plan) => {
            let OneTick { runner, state } = engine::tick_of(&plan, st);
            AfterTick {
                told: Ok(runner),
                state,
            }
        }
        Err(refusal) => AfterTick {
            told: Err(refusal),
            state: st,
        },
    }
}

// One tick of a record in the caller's memory.
pub fn tick_in_place(s: &[u8], st: &mut State) -> Result<Runner, Refusal>
    ensures { tick_in_place_contract s.now st.old (told_in result) st.new }
{
    let AfterTick { told, state } = tick(s, *st);
    *st = state;
    told
}

// A horizon and the buffer for its trace: 14, then 15.
fn room_for_run(horizon: u16, trace: &[u8]) -> Result<(), Refusal>
    ensures { result ≡ (if 60000 <? horizon then Err Horizon else if length trace.now <? horizon then Err Buffer else Ok tt) }
{
    if 60000 < horizon {
        return Err(Refusal::Horizon);
    }
    if trace.len() < horizon as usize {
        return Err(Refusal::Buffer);
    }
    Ok(())
}

// A whole run from the start: one runner byte per tick into the first bytes of the trace; later bytes stay.
pub fn run(s: &[u8], horizon: u16, trace: &mut [u8]) -> Result<State, Refusal>
    ensures { run_contract s.now horizon trace.old (ran_in result) trace.new }
{
    let table = sheet::read_sheet(s)?;
    room_for_run(horizon, trace)?;
    Ok(engine::run_of(&Plan::new(table), horizon, trace))
}

// The reader of task sheets: bytes give a table or a refusal.
// Each reading step reads at the front of some bytes. It answers a value with the next cursor, which is the rest of the bytes, or
// a refusal: specs/Reader.antt says what the answers mean, and what is read stands in the rules.
#![tactic(auto)]

ghost use Rattle.std.specs.Prelude.{◌≡◌, ◌*◌, ◌<◌, ◌≤◌, List, length, set, take, map, false, IfOk};
ghost use Rattle.rules.specs.Sheet.{Step as Rules·Step};
ghost use Rattle.rules.specs.Reading.{read_head, head_length, read_task_head, misplaced_in, read_step, read_task, read_tasks, read_sheet};
ghost use Rattle.rules.specs.Laws.{StepLimits};
ghost use Rattle.rules.specs.Coded.{reading};
ghost use Rattle.table.specs.Steps.{meant};
ghost use Rattle.table.specs.Tasks.{task_of};
ghost use Rattle.table.specs.Table.{sheet_of};
ghost use Rattle.steps.specs.Nesting.{open_behind};
ghost use Rattle.sheet.specs.Reader.{with_rest, steps_there};

use rules::{Head, Refusal};
use std::marker::Model;
use steps::{Nest, known_step};
use table::{Step, Table, Task};

// The head of a task, with the count of the steps that stand behind it. A clause sees it as document 01's.
#[derive(Drop)]
struct TaskHead {
    period: u16,
    offset: u16,
    count: u8,
}

impl Model for TaskHead {
    ghost use Rattle.std.specs.Prelude.{◌≤◌};
    ghost use Rattle.rules.specs.Reading.{TaskHead as Rules·TaskHead};

    ghost Value = { Rules·TaskHead };

    ghost view = { λ x. record { period = x.period; offset = x.offset; count = x.count } };

    ghost invariant = { λ x. (1 ≤ x.period) × (x.count ≤ 64) };
}

// The head: 1 to 6 in turn.
#[tactic(auto, using(crate::proofs::Turns::in_turn), unfolding(crate::specs::Reader::with_rest, rules::specs::Reading::read_head, rules::specs::Reading::marked, rules::specs::Reading::word, rules::specs::Reading::byte, rules::specs::Words::within))]
fn read_head(bytes: &[u8]) -> Result<(Head, &[u8]), Refusal>
    ensures reads { reading (λ (head, rest). (head, rest.now)) result
        ≡ with_rest 8 bytes.now (read_head bytes.now) }
    ensures few { IfOk result (λ (head, rest). (head.n ≤ 16) × (head.semaphores ≤ 16)) }
{
    let [_, _, _, high, low, n, semaphores, mode, rest @ ..] = bytes else {
        return Err(Refusal::Short);
    };
    let [b'L', b'T', b'S', ..] = bytes else {
        return Err(Refusal::Mark);
    };
    if u16::from_be_bytes([*high, *low]) != 1 {
        return Err(Refusal::Version);
    }
    if !matches!(*n, 1..=16) {
        return Err(Refusal::TaskCount);
    }
    if 16 < *semaphores {
        return Err(Refusal::SemaphoreCount);
    }
    if 1 < *mode {
        return Err(Refusal::Mode);
    }
    let head = Head {
        n: *n,
        semaphores: *semaphores,
        mode: *mode,
    };
    Ok((head, rest))
}

// How many bytes a task's head has: the code has it here alone.
#[tactic(auto, unfolding(rules::specs::Reading::head_length))]
fn head_length(_head: Head) -> usize
    ensures { result ≡ head_length _head }
{
    5
}

// The head of task i: 7 for the head, 8, 9, 10, 7 for the steps.
#[tactic(auto, using(crate::proofs::Turns::fields_in_turn), unfolding(crate::specs::Reader::with_rest, rules::specs::Reading::read_task_head, rules::specs::Reading::word, rules::specs::Reading::byte, rules::specs::Words::within))]
fn read_task_head(head: Head, i: u8, bytes: &[u8]) -> Result<(TaskHead, &[u8]), Refusal>
    ensures reads { reading (λ (own, rest). (own, rest.now)) result
        ≡ with_rest (head_length head) bytes.now (read_task_head head i bytes.now) }
    ensures long { IfOk result (λ (own, rest). 3 * own.count ≤ length rest.now) }
{
    let Some(([period_high, period_low, offset_high, offset_low, count, ..], rest)) =
        bytes.split_at_checked(head_length(head)) else {
        return Err(Refusal::Cut(i));
    };
    let period = u16::from_be_bytes([*period_high, *period_low]);
    if !matches!(period, 1..=10_000) {
        return Err(Refusal::Period(i));
    }
    let offset = u16::from_be_bytes([*offset_high, *offset_low]);
    if period <= offset {
        return Err(Refusal::Offset(i));
    }
    if !matches!(*count, 1..=64) {
        return Err(Refusal::StepCount(i));
    }
    if rest.len() < 3 * usize::from(*count) {
        return Err(Refusal::Cut(i));
    }
    let own = TaskHead {
        period,
        offset,
        count: *count,
    };
    Ok((own, rest))
}

// Step k of task i, behind those that left the nest so: 11 before 12.
#[tactic(auto, using(crate::proofs::Turns::in_turn), unfolding(crate::specs::Reader::with_rest, rules::specs::Reading::read_step, rules::specs::Reading::misplaced, rules::specs::Reading::word, rules::specs::Reading::byte))]
fn read_step<'a>(
    m: u8,
    i: u8,
    k: u8,
    nest: &Nest,
    bytes: &'a [u8],
) -> Result<(Step, &'a [u8]), Refusal>
    requires { 3 ≤ length bytes.now }
    ensures reads { (before : List Rules·Step) → length before ≡ k → nest.now ≡ open_behind before
        → reading (λ (step, rest). (meant step, rest.now)) result
        ≡ with_rest 3 bytes.now (read_step m i before bytes.now) }
    ensures limits { IfOk result (λ (step, rest). StepLimits m (meant step)) }
    ensures placed { IfOk result (λ (step, rest).
        misplaced_in nest.now.held nest.now.locked (meant step) ≡ false) }
{
    // A cut in the steps, 7, is given before any of them is read.
    let [kind, high, low, rest @ ..] = bytes else {
        return Err(Refusal::Cut(i));
    };
    let value = u16::from_be_bytes([*high, *low]);
    let Some(step) = known_step(m, *kind, value) else {
        return Err(Refusal::UnknownStep(i, k));
    };
    if nest.is_misplaced(step) {
        return Err(Refusal::Nesting(i, k));
    }
    Ok((step, rest))
}

// The steps of task i, one by one; at the end 12 for sections open. The task has them where they stand.
#[tactic(auto, using(crate::proofs::Steps::steps_in_turn), unfolding(crate::specs::Reader::steps_there))]
fn read_steps<'a>(
    m: u8,
    i: u8,
    own: TaskHead,
    bytes: &'a [u8],
) -> Result<(Task<'a>, &'a [u8]), Refusal>
    requires semaphores { m ≤ 16 }
    requires long { 3 * own.count ≤ length bytes.now }
    ensures { reading (λ (task, rest). (task_of task, rest.now)) result ≡ steps_there m i own bytes.now }
{
    let mut nest = Nest::new();
    let mut rest = bytes;
    for k in 0..own.count {
        let (step, next) = read_step(m, i, k, &nest, rest)?;
        nest.enter(step);
        rest = next;
    }
    if !nest.is_closed() {
        return Err(Refusal::Nesting(i, own.count));
    }
    let (steps, _) = bytes[..3 * usize::from(own.count)].as_chunks::<3>();
    Ok((Task::of_steps(own.period, own.offset, steps), rest))
}

// Task i: its head, then its steps.
#[tactic(auto, using(crate::proofs::Parts::parts_in_turn))]
fn read_task(head: Head, i: u8, bytes: &[u8]) -> Result<(Task<'_>, &[u8]), Refusal>
    requires { head.semaphores ≤ 16 }
    ensures { reading (λ (task, rest). (task_of task, rest.now)) result ≡ read_task head i bytes.now }
{
    let (own, rest) = read_task_head(head, i, bytes)?;
    read_steps(head.semaphores, i, own, rest)
}

// Puts a value at a place of a row. (Of any type, since the checker has no rule yet for writing an element that holds a reference.)
fn put<T: Copy>(x: T, i: usize, row: &mut [T; 16])
    requires { i < 16 }
    ensures { row.new ≡ set row.old i x }
{
    row[i] = x;
}

// The tasks behind the head, by rank, in the row that the table takes.
#[tactic(auto, using(crate::proofs::Tasks::tasks_in_turn))]
fn read_tasks<'a>(
    head: Head,
    bytes: &'a [u8],
    tasks: &mut [Task<'a>; 16],
) -> Result<&'a [u8], Refusal>
    requires few { head.n ≤ 16 }
    requires semaphores { head.semaphores ≤ 16 }
    ensures { reading (λ rest. (take head.n (map task_of tasks.new), rest.now)) result
        ≡ read_tasks head 0 head.n bytes.now }
{
    let mut rest = bytes;
    for i in 0..head.n {
        let (task, next) = read_task(head, i, rest)?;
        put(task, usize::from(i), tasks);
        rest = next;
    }
    Ok(rest)
}

// The sheet: its table, or why it is turned away. 13 comes last.
#[tactic(auto, using(crate::proofs::Parts::parts_in_turn))]
pub fn read_sheet(s: &[u8]) -> Result<Table<'_>, Refusal>
    ensures { reading sheet_of result ≡ read_sheet s.now }
{
    let (head, bytes) = read_head(s)?;
    let mut tasks = [Task::default(); 16];
    let rest = read_tasks(head, bytes, &mut tasks)?;
    if !rest.is_empty() {
        return Err(Refusal::BytesLeft);
    }
    Ok(Table::of_bytes(s, head, tasks))
}

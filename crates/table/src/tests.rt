// A task that is put together step by step, and the table of such tasks, of which no bytes stand anywhere.

use super::{OwnTask, Step, Table, Task};
use arrayvec::ArrayVec;

#[test]
fn pushes(rt: HostRuntime) {
    let mut own = OwnTask::new(10, 2);
    own.push(Step::Lock(3));
    own.push(Step::Run(500));
    own.push(Step::Unlock(3));
    let task = own.task();
    assert_eq!(rt; (task.period(), task.offset(), task.count()), (10, 2, 3));
    assert_eq!(rt; task.step_at(0), Some(Step::Lock(3)));
    assert_eq!(rt; task.step_at(1), Some(Step::Run(500)));
    assert_eq!(rt; task.step_at(2), Some(Step::Unlock(3)));
    assert_eq!(rt; task.step_at(3), None);
}

#[test]
fn stands_in_three_bytes(rt: HostRuntime) {
    assert_eq!(rt; <[u8; 3]>::from(Step::Run(500)), [1, 1, 244]);
    assert_eq!(rt; <[u8; 3]>::from(Step::Lock(3)), [2, 0, 3]);
    assert_eq!(rt; <[u8; 3]>::from(Step::Unlock(3)), [3, 0, 3]);
}

#[test]
fn stands_in_places_that_are_free(rt: HostRuntime) {
    assert_eq!(rt; Step::default(), Step::Run(0));
    let own = OwnTask::default();
    let task = own.task();
    assert_eq!(rt; (task.period(), task.offset(), task.count()), (1, 0, 0));
}

#[test]
fn has_no_bytes(rt: HostRuntime) {
    let mut own = OwnTask::new(4, 1);
    own.push(Step::Run(2));
    let mut tasks = ArrayVec::new();
    tasks.push(own.task());
    let table = Table::new(1, 16, tasks);
    assert_eq!(rt; (table.mode(), table.semaphores(), table.len()), (1, 16, 1));
    assert_eq!(rt; table.tasks().len(), 1);
    let task: &Task = table.task(0);
    assert_eq!(rt; (task.period(), task.offset(), task.count()), (4, 1, 1));
    assert_eq!(rt; task.step_at(0), Some(Step::Run(2)));
}

// A section within another: what is open is not locked again, and what an unlock gives back can be.

use super::Nest;
use table::Step;

#[test]
fn opens_and_closes(rt: HostRuntime) {
    let mut nest = Nest::new();
    for step in [Step::Lock(7), Step::Run(2), Step::Lock(3)] {
        assert!(rt; !nest.is_misplaced(step));
        nest.enter(step);
    }
    assert!(rt; nest.is_misplaced(Step::Lock(7)));
    assert!(rt; nest.is_misplaced(Step::Unlock(7)));
    for step in [Step::Run(1), Step::Unlock(3)] {
        assert!(rt; !nest.is_misplaced(step));
        nest.enter(step);
    }
    assert!(rt; !nest.is_misplaced(Step::Lock(3)));
    assert!(rt; !nest.is_closed());
    assert!(rt; !nest.is_misplaced(Step::Unlock(7)));
    nest.enter(Step::Unlock(7));
    assert!(rt; nest.is_closed());
}

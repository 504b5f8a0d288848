// Events over both topics, where memory may be refused at any allocation.
use super::check_lists;

/// With ample memory both answer alike. Run with each allocation refused in turn (`bench/memory`), this shows
/// that a refusal for want of memory leaves a topic as it was.
#[test]
fn a_refusal_changes_nothing(rt: HostRuntime) {
    check_lists(&rt, 0);
}

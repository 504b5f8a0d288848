// That a view over lists shows the keys and holders that the lists have.
use super::message::new_log;
use super::subscription::Only;
use crate::list_view::ListView;
use dispatch_core::View;
use position_core::Kind;
use std::process::Abort;

fn expect_at<R: Abort, V: View>(rt: &R, view: &V, index: u64, holder: Option<u64>) {
    assert!(rt; view.holder(index) == holder);
    assert!(rt; view.key(index).is_some() == (index == 1));
}

fn expect_scene<R: Abort, V: View>(rt: &R, view: &V) {
    assert!(rt; view.visible() == 2 && view.length() == 3);
    expect_at(rt, view, 0, None);
    expect_at(rt, view, 1, Some(4));
    expect_at(rt, view, 2, None);
    expect_at(rt, view, 3, None);
    assert!(rt; view.key(1) == Some("k"));
}

#[test]
fn a_view_shows_its_lists(rt: HostRuntime) {
    let log = new_log(&rt, [None, Some("k"), None]);
    let mut only = Only::new(&rt, Kind::Failover);
    only.hold(&rt, 1, 4);
    let view = ListView {
        log: log.as_slice(),
        durable: 2,
        subscription: &only.subscription,
        members: &[],
    };
    expect_scene(&rt, &view);
    drop(only);
    drop(log);
}

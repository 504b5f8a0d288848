// One dispatcher of each kind, over a topic that nothing has happened to.
use dispatch_core::{Seen, View};
use position_core::{Fault, Kind, LogIndex};
use std::process::Abort;
use topic_served::Dispatch;

/// Its subscription is of the kind.
#[derive(Clone, Copy)]
struct Bare {
    kind: Kind,
}

impl View for Bare {
    ghost use Rattle.topic_served.specs.Bare.{bare, only};

    ghost state = { λ v. bare v.kind };

    ghost subscription = { λ v. only v.kind };

    fn visible(&self) -> u64 {
        0
    }

    fn length(&self) -> u64 {
        0
    }

    #[tactic(auto, unfolding(dispatch_core::specs::Log::key_at))]
    fn key(&self, _index: LogIndex) -> Option<&str> {
        None
    }

    fn next_waiting(&self, _from: LogIndex) -> Option<LogIndex> {
        None
    }

    #[tactic(auto, unfolding(dispatch_core::specs::Log::holder_at))]
    fn holder(&self, _index: LogIndex) -> Option<u64> {
        None
    }

    fn member(&self, _place: u64) -> Option<Seen> {
        None
    }
}

/// Makes each call that tells of a change.
fn tell_each<V: View>(dispatch: &mut Dispatch, view: &V) -> Result<(), Fault> {
    dispatch.on_join(view, 2, &None)?;
    dispatch.on_sent(view, 0, 2)?;
    dispatch.on_released(view, 0);
    dispatch.on_gone(view, 0);
    dispatch.on_leave(view, 2);
    dispatch.on_reset(view)
}

/// So those of a message that comes and is taken back, of which none need be told.
fn tell_of_message<V: View>(dispatch: &mut Dispatch, view: &V) -> Result<(), Fault> {
    dispatch.on_append(view)?;
    dispatch.undo_append(view);
    Ok(())
}

fn expect_told<R: Abort + AllocGlobal>(rt: &R, kind: Kind) {
    let view = Bare { kind };
    let mut dispatch = Dispatch::begin(rt.alloc(), &view, kind).expect(rt, "no memory");
    assert_eq!(rt; dispatch.offer(&view), None);
    tell_each(&mut dispatch, &view).expect(rt, "no memory");
    tell_of_message(&mut dispatch, &view).expect(rt, "no memory");
    drop(dispatch);
}

#[test]
fn each_kind_begins_and_is_told(rt: HostRuntime) {
    for kind in [
        Kind::Exclusive,
        Kind::Failover,
        Kind::Shared,
        Kind::KeyShared,
    ] {
        expect_told(&rt, kind);
    }
}

// The law of a dispatcher, used through its trait.
ghost use Rattle.std.specs.Prelude.{◌≡◌, [], None, IsTrue};
ghost use Rattle.delivery_machine.specs.Shares.{no_shares};
ghost use Rattle.delivery_machine.specs.Words.{members_of};
ghost use Rattle.dispatch_core.specs.Changes.{Joined, Kept};
ghost use Rattle.topic_tests.specs.Listed.{listed};

use super::member::{Takes, new_member};
use super::message::new_log;
use super::subscription::Only;
use crate::list_view::ListView;
use dispatch_core::{Dispatcher, Offer, View};
use dispatch_keyed::Keyed;
use dispatch_shared::Shared;
use dispatch_single::Single;
use plain_lists::{Member, Subscription};
use position_core::{Fault, Kind, Message};
use std::alloc::Global;
use std::process::Abort;

/// What is offered when a first consumer has joined, and once the log is stored.
fn offers<D: Dispatcher + Drop, V: View>(
    alloc: Global,
    empty: &V,
    joined: &V,
    stored: &V,
    consumer: u64,
) -> Result<(Option<Offer>, Option<Offer>), Fault>
    requires kind { IsTrue (D.serves (V.subscription empty.now).kind) }
    requires nobody { members_of (V.state empty.now) (V.subscription empty.now).name ≡ [] }
    requires unshared { (V.subscription empty.now).shares ≡ no_shares }
    requires joins { Joined None consumer (V.state empty.now) (V.subscription empty.now) (V.state joined.now) (V.subscription joined.now) }
    requires stores { Kept (V.state joined.now) (V.subscription joined.now) (V.state stored.now) (V.subscription stored.now) }
{
    let mut dispatcher = D::begin(alloc, empty)?;
    dispatcher.on_join(joined, consumer)?;
    Ok((dispatcher.offer(joined), dispatcher.offer(stored)))
}

/// Makes each call that tells of a change.
fn tell<D: Dispatcher, V: View>(dispatcher: &mut D, view: &V) -> Result<(), Fault> {
    dispatcher.on_append(view)?;
    dispatcher.undo_append(view);
    dispatcher.on_join(view, 2)?;
    dispatcher.on_join(view, 3)?;
    dispatcher.on_leave(view, 2);
    dispatcher.on_sent(view, 0, 1)?;
    dispatcher.on_released(view, 0);
    dispatcher.on_gone(view, 0);
    dispatcher.on_reset(view)
}

fn check_offers<R: Abort>(rt: &R, unstored: Option<Offer>, offered: Option<Offer>) {
    let first = Offer {
        index: 0,
        consumer: 1,
    };
    assert_eq!(rt; unstored, None);
    assert_eq!(rt; offered, Some(first));
}

/// A dispatcher begins, and each change is told.
fn expect_told<R: Abort + AllocGlobal, D: Dispatcher + Drop, V: View>(rt: &R, empty: &V, stored: &V)
    requires kind { IsTrue (D.serves (V.subscription empty.now).kind) }
    requires nobody { members_of (V.state empty.now) (V.subscription empty.now).name ≡ [] }
    requires unshared { (V.subscription empty.now).shares ≡ no_shares }
{
    let mut told = D::begin(rt.alloc(), empty).expect(rt, "no memory");
    tell(&mut told, stored).expect(rt, "no memory");
}

/// A dispatcher begins, a first consumer joins, and the log is stored.
fn expect_offers<R: Abort + AllocGlobal, D: Dispatcher + Drop>(
    rt: &R,
    log: &[Message],
    before: &Subscription,
    after: &Subscription,
    members: &[Member],
)
    requires kind { IsTrue (D.serves before.now.kind) }
    requires unshared { before.now.shares ≡ no_shares }
    requires joins { Joined None 1 (listed log.now 0 []) before.now (listed log.now 0 members.now) after.now }
{
    let empty = ListView {
        log,
        durable: 0,
        subscription: before,
        members: &[],
    };
    let joined = ListView {
        subscription: after,
        members,
        ..empty
    };
    let stored = ListView {
        durable: 3,
        ..joined
    };
    let offered = offers::<D, ListView<'_>>(rt.alloc(), &empty, &joined, &stored, 1);
    let (unstored, offered) = offered.expect(rt, "no memory");
    check_offers(rt, unstored, offered);
    expect_told::<R, D, ListView<'_>>(rt, &empty, &stored);
}

fn expect_law<R: Abort + AllocGlobal, D: Dispatcher + Drop>(rt: &R, kind: Kind)
    requires { IsTrue (D.serves kind) }
{
    let log = new_log(rt, [None; 3]);
    let before = Only::new(rt, kind);
    let mut after = Only::new(rt, kind);
    after.join(rt, 1);
    let members = [new_member(rt, 1, 0, Takes::Pushed(10))];
    expect_offers::<R, D>(
        rt,
        log.as_slice(),
        &before.subscription,
        &after.subscription,
        &members,
    );
    drop(members);
    drop(after);
    drop(before);
    drop(log);
}

#[test]
fn each_dispatcher_keeps_the_law(rt: HostRuntime) {
    expect_law::<HostRuntime, Single>(&rt, Kind::Exclusive);
    expect_law::<HostRuntime, Shared>(&rt, Kind::Shared);
    expect_law::<HostRuntime, Keyed>(&rt, Kind::KeyShared);
}

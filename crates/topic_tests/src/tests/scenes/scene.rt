// A scene: what happens to a topic, and what is offered after each step.
use super::member::Takes;
use crate::list_view::ListView;
use dispatch_core::{Dispatcher, Offer};
use std::process::Abort;

#[derive(Clone, Copy)]
pub(super) enum Change {
    Begun,
    /// The consumer joins, and may hold so many messages.
    Joined(u64, u32),
    /// The consumer leaves, and its messages wait again.
    Left(u64),
    /// The message that was offered is sent.
    Sent,
    /// So, and the dispatcher is not told.
    SentUntold,
    /// The message of the index is pending at the consumer. Only the dispatcher of Key_Shared is told.
    Held(u64, u64),
    /// The message of the index is acknowledged.
    Acknowledged(u64),
    /// The consumer may be sent so many further messages.
    Permitted(u64, u32),
}

#[derive(Clone, Copy)]
pub(super) struct Scene {
    pub(super) says: &'static str,
    pub(super) durable: usize,
    pub(super) keys: &'static [Option<&'static str>; 3],
    /// Who is there from the first: numbers, levels and flows.
    pub(super) members: &'static [(u64, u32, Takes)],
    /// What changes, and the index and the consumer that are offered then.
    pub(super) steps: &'static [(Change, Option<(u64, u64)>)],
}

/// A topic and a dispatcher of its subscription.
pub(super) trait Stage {
    fn offer(&self) -> Option<Offer>;

    /// Where a message is sent, it is the one that was offered.
    fn make<R: Abort + AllocGlobal>(&mut self, rt: &R, change: Change, offer: Option<Offer>);
}

/// The dispatcher is told of each who joins.
pub(super) fn tell_of_all<R: Abort, D: Dispatcher>(
    rt: &R,
    dispatcher: &mut D,
    view: &ListView<'_>,
    members: &[(u64, u32, Takes)],
) {
    for (number, _, _) in members {
        let done = dispatcher.on_join(view, *number);
        done.expect(rt, "no memory");
    }
}

fn check_offer<R: Abort>(
    rt: &R,
    offer: Option<Offer>,
    expected: Option<(u64, u64)>,
    says: &'static str,
) {
    let offered = offer.map(|offer| (offer.index, offer.consumer));
    assert_eq!(rt; offered, expected, "{says}");
}

/// Makes the changes, and looks after each at what is offered.
pub(super) fn play<R: Abort + AllocGlobal, S: Stage>(rt: &R, stage: &mut S, scene: &Scene) {
    let mut offer = None;
    for (change, expected) in scene.steps {
        stage.make(rt, *change, offer);
        offer = stage.offer();
        check_offer(rt, offer, *expected, scene.says);
    }
}

// Scenes, each with its offers by the rules of Shared.
use super::member::Takes;
use super::scene::{Change, Scene, Stage, play, tell_of_all};
use super::subscription::Only;
use super::topic::Topic;
use crate::list_view::ListView;
use dispatch_core::{Dispatcher, Offer, View};
use dispatch_shared::Shared;
use position_core::Kind;
use std::process::Abort;

#[derive(Drop)]
struct SharedStage {
    topic: Topic,
    dispatcher: Shared,
}

/// A dispatcher of a subscription that nobody has joined.
pub(super) fn begin<R: Abort + AllocGlobal>(rt: &R) -> Shared {
    let only = Only::new(rt, Kind::Shared);
    let begun = Shared::begin(rt.alloc(), &only.alone());
    drop(only);
    begun.expect(rt, "no memory")
}

impl SharedStage {
    fn new<R: Abort + AllocGlobal>(rt: &R, scene: &Scene) -> Self {
        let mut dispatcher = begin(rt);
        let topic = Topic::new(rt, Kind::Shared, scene);
        tell_of_all(rt, &mut dispatcher, &topic.view(), scene.members);
        SharedStage { topic, dispatcher }
    }
}

/// What is pending at the consumer waits again.
fn release(dispatcher: &mut Shared, view: &ListView<'_>, consumer: u64) {
    for index in 0..view.length() {
        if view.holder(index) == Some(consumer) {
            dispatcher.on_released(view, index);
        }
    }
}

fn tell_sent<R: Abort>(rt: &R, dispatcher: &mut Shared, view: &ListView<'_>, offer: Option<Offer>) {
    let Offer { index, consumer } = offer.expect(rt, "nothing is offered");
    let done = dispatcher.on_sent(view, index, consumer);
    done.expect(rt, "no memory");
}

impl Stage for SharedStage {
    fn offer(&self) -> Option<Offer> {
        let view = self.topic.view();
        match view.subscription.kind() {
            Kind::Exclusive => None,
            Kind::Failover => None,
            Kind::Shared => self.dispatcher.offer(&view),
            Kind::KeyShared => None,
        }
    }

    fn make<R: Abort + AllocGlobal>(&mut self, rt: &R, change: Change, offer: Option<Offer>) {
        if let Change::Left(consumer) = change {
            release(&mut self.dispatcher, &self.topic.view(), consumer);
        }
        self.topic.make(rt, change, offer);
        match change {
            Change::Sent => tell_sent(rt, &mut self.dispatcher, &self.topic.view(), offer),
            Change::Left(consumer) => self.dispatcher.on_leave(&self.topic.view(), consumer),
            _ => {}
        }
    }
}

/// Three messages that wait, and two members of one level.
const PLAIN: Scene = Scene {
    says: "members of one level take turns",
    durable: 3,
    keys: &[None; 3],
    members: &[(1, 5, Takes::Pushed(2)), (2, 5, Takes::Pushed(2))],
    steps: &[
        (Change::Begun, Some((0, 1))),
        (Change::Sent, Some((1, 2))),
        (Change::Sent, Some((2, 1))),
        (Change::Sent, None),
    ],
};

const LEVELS: Scene = Scene {
    says: "the better level goes first, then one with room, and then nobody",
    members: &[(1, 0, Takes::Pushed(1)), (2, 1, Takes::Pushed(1))],
    steps: &[
        (Change::Begun, Some((0, 1))),
        (Change::Sent, Some((1, 2))),
        (Change::Sent, None),
    ],
    ..PLAIN
};

const SCENES: &[Scene] = &[
    PLAIN,
    LEVELS,
    Scene {
        says: "so it is where nobody tells of what was sent",
        steps: &[
            (Change::Begun, Some((0, 1))),
            (Change::SentUntold, Some((1, 2))),
            (Change::SentUntold, None),
        ],
        ..LEVELS
    },
    Scene {
        says: "level counts before number and turn",
        members: &[
            (1, 1, Takes::Pushed(9)),
            (2, 0, Takes::Pushed(2)),
            (3, 1, Takes::Pushed(9)),
        ],
        steps: &[
            (Change::Begun, Some((0, 2))),
            (Change::Sent, Some((1, 2))),
            (Change::Sent, Some((2, 3))),
            (Change::Sent, None),
        ],
        ..PLAIN
    },
    Scene {
        says: "the next in turn is of a number above, whatever the order of joining",
        members: &[
            (3, 5, Takes::Pushed(9)),
            (1, 5, Takes::Pushed(9)),
            (2, 5, Takes::Pushed(9)),
        ],
        steps: &[
            (Change::Begun, Some((0, 1))),
            (Change::Sent, Some((1, 2))),
            (Change::Sent, Some((2, 3))),
        ],
        ..PLAIN
    },
    Scene {
        says: "who has left is passed over",
        members: &[
            (1, 5, Takes::Pushed(2)),
            (2, 5, Takes::Pushed(2)),
            (3, 5, Takes::Pushed(2)),
        ],
        steps: &[
            (Change::Begun, Some((0, 1))),
            (Change::Sent, Some((1, 2))),
            (Change::Left(2), Some((1, 3))),
            (Change::Sent, Some((2, 1))),
        ],
        ..PLAIN
    },
    Scene {
        says: "a full window is passed over",
        members: &[(1, 5, Takes::Pushed(1)), (2, 5, Takes::Pushed(2))],
        steps: &[
            (Change::Begun, Some((0, 1))),
            (Change::Sent, Some((1, 2))),
            (Change::Sent, Some((2, 2))),
        ],
        ..PLAIN
    },
    Scene {
        says: "who pulls has room by permits alone, each for one message",
        members: &[(1, 0, Takes::Pulls)],
        steps: &[
            (Change::Begun, None),
            (Change::Permitted(1, 1), Some((0, 1))),
            (Change::Sent, None),
            (Change::Permitted(1, 2), Some((1, 1))),
        ],
        ..PLAIN
    },
    Scene {
        says: "nothing is visible",
        durable: 0,
        steps: &[(Change::Begun, None)],
        ..PLAIN
    },
    Scene {
        says: "one message is visible",
        durable: 1,
        steps: &[(Change::Begun, Some((0, 1))), (Change::Sent, None)],
        ..PLAIN
    },
    Scene {
        says: "nobody is there",
        members: &[],
        steps: &[(Change::Begun, None)],
        ..PLAIN
    },
];

fn play_each<R: Abort + AllocGlobal>(rt: &R, scenes: &[Scene]) {
    for scene in scenes {
        let mut stage = SharedStage::new(rt, scene);
        play(rt, &mut stage, scene);
        drop(stage);
    }
}

#[test]
fn each_scene_has_its_offers(rt: HostRuntime) {
    play_each(&rt, SCENES);
}

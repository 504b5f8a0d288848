// Scenes, each with its offers by the rules of Key_Shared. The hashes of the keys are those of Murmur3:
// "Hello, world!" has 15,939, no key 48,803, "k69" and "k259" 48,912, "test" 53,779, and "" has 0.
//
// The first consumer has all hashes. A further one takes the lower half of the largest share: the
// second has those below 32,768 then, the third those below 16,384, and the fourth those from 32,768
// to 49,151.
use super::scene::{Change, Scene, Stage, play};
use super::subscription::Only;
use super::topic::Topic;
use crate::list_view::ListView;
use dispatch_core::{Dispatcher, Offer, View};
use dispatch_keyed::Keyed;
use position_core::Kind;
use std::process::Abort;

/// The topic and its dispatcher, which is told of each change but one, and has looked at what is
/// visible.
#[derive(Drop)]
struct KeyedStage {
    topic: Topic,
    dispatcher: Keyed,
}

impl KeyedStage {
    fn new<R: Abort + AllocGlobal>(rt: &R, scene: &Scene) -> Self {
        let only = Only::new(rt, Kind::KeyShared);
        let begun = Keyed::begin(rt.alloc(), &only.alone());
        drop(only);
        let dispatcher = begun.expect(rt, "no memory");
        let topic = Topic::new(rt, Kind::KeyShared, scene);
        KeyedStage { topic, dispatcher }
    }

    /// What is pending at the consumer waits again.
    fn release<R: Abort + AllocGlobal>(&mut self, rt: &R, consumer: u64) {
        for index in 0..self.topic.view().length() {
            if self.topic.view().holder(index) == Some(consumer) {
                self.topic.release(rt, index);
                self.dispatcher.on_released(&self.topic.view(), index);
            }
        }
    }
}

/// Tells of a change that was made.
fn tell<R: Abort>(
    rt: &R,
    dispatcher: &mut Keyed,
    view: &ListView<'_>,
    change: Change,
    offer: Option<Offer>,
) {
    let done = match change {
        Change::Joined(consumer, _) => dispatcher.on_join(view, consumer),
        Change::Left(consumer) => Ok(dispatcher.on_leave(view, consumer)),
        Change::Sent => {
            let Offer { index, consumer } = offer.expect(rt, "nothing is offered");
            dispatcher.on_sent(view, index, consumer)
        }
        Change::Held(index, consumer) => dispatcher.on_sent(view, index, consumer),
        Change::Acknowledged(index) => Ok(dispatcher.on_gone(view, index)),
        Change::Begun | Change::SentUntold | Change::Permitted(_, _) => Ok(()),
    };
    done.expect(rt, "no memory");
}

impl Stage for KeyedStage {
    fn offer(&self) -> Option<Offer> {
        self.dispatcher.offer(&self.topic.view())
    }

    fn make<R: Abort + AllocGlobal>(&mut self, rt: &R, change: Change, offer: Option<Offer>) {
        if let Change::Left(consumer) = change {
            self.release(rt, consumer);
        }
        self.topic.make(rt, change, offer);
        let view = self.topic.view();
        tell(rt, &mut self.dispatcher, &view, change, offer);
        self.dispatcher.look(&view).expect(rt, "no memory");
    }
}

const DRAINING: Scene = Scene {
    says: "a hash drains before its new owner is served, and another one goes on",
    durable: 3,
    keys: &[Some("Hello, world!"), Some("Hello, world!"), Some("test")],
    members: &[],
    steps: &[
        (Change::Begun, None),
        (Change::Joined(1, 9), Some((0, 1))),
        (Change::Sent, Some((1, 1))),
        (Change::Joined(2, 9), Some((2, 1))),
        (Change::Sent, None),
        (Change::Acknowledged(2), None),
        (Change::Acknowledged(0), Some((1, 2))),
        (Change::Sent, None),
    ],
};

const SCENES: &[Scene] = &[
    DRAINING,
    Scene {
        says: "two keys of one hash are as one key",
        keys: &[Some("k69"), Some("k259"), None],
        steps: &[
            (Change::Joined(1, 9), Some((0, 1))),
            (Change::Sent, Some((1, 1))),
            (Change::Joined(2, 9), Some((1, 1))),
            (Change::Joined(3, 9), Some((1, 1))),
            (Change::Joined(4, 9), Some((2, 4))),
            (Change::Sent, None),
            (Change::Acknowledged(0), Some((1, 4))),
        ],
        ..DRAINING
    },
    Scene {
        says: "an owner without room waits, and another one goes on",
        keys: &[Some("test"), Some("test"), Some("Hello, world!")],
        steps: &[
            (Change::Joined(1, 1), Some((0, 1))),
            (Change::Joined(2, 9), Some((0, 1))),
            (Change::Sent, Some((2, 2))),
            (Change::Sent, None),
            (Change::Acknowledged(0), Some((1, 1))),
        ],
        ..DRAINING
    },
    Scene {
        says: "a message without a key has a hash of its own, and one of an empty key has another",
        keys: &[None, Some(""), None],
        steps: &[
            (Change::Joined(1, 1), Some((0, 1))),
            (Change::Joined(2, 9), Some((0, 1))),
            (Change::Sent, Some((1, 2))),
            (Change::Sent, None),
            (Change::Acknowledged(0), Some((2, 1))),
        ],
        ..DRAINING
    },
    Scene {
        says: "one of one key follows another to the same member",
        keys: &[Some("test"), Some("test"), Some("test")],
        steps: &[
            (Change::Joined(1, 9), Some((0, 1))),
            (Change::Sent, Some((1, 1))),
            (Change::Sent, Some((2, 1))),
            (Change::Sent, None),
        ],
        ..DRAINING
    },
    Scene {
        says: "who leaves gives its hashes and its messages back",
        steps: &[
            (Change::Joined(1, 9), Some((0, 1))),
            (Change::Joined(2, 9), Some((0, 2))),
            (Change::Sent, Some((1, 2))),
            (Change::Left(2), Some((0, 1))),
            (Change::Left(1), None),
        ],
        ..DRAINING
    },
    Scene {
        says: "nobody is there, once and again",
        steps: &[
            (Change::Begun, None),
            (Change::Joined(7, 1), Some((0, 7))),
            (Change::Left(7), None),
        ],
        ..DRAINING
    },
    Scene {
        says: "one message is visible",
        durable: 1,
        steps: &[(Change::Joined(1, 9), Some((0, 1))), (Change::Sent, None)],
        ..DRAINING
    },
    Scene {
        says: "who joins takes half of the largest share, and who leaves gives it to the next",
        steps: &[
            (Change::Joined(1, 9), Some((0, 1))),
            (Change::Joined(2, 9), Some((0, 2))),
            (Change::Joined(3, 9), Some((0, 3))),
            (Change::Left(3), Some((0, 2))),
            (Change::Left(2), Some((0, 1))),
        ],
        ..DRAINING
    },
];

fn play_each<R: Abort + AllocGlobal>(rt: &R, scenes: &[Scene]) {
    for scene in scenes {
        let mut stage = KeyedStage::new(rt, scene);
        play(rt, &mut stage, scene);
        drop(stage);
    }
}

#[test]
fn each_scene_has_its_offers(rt: HostRuntime) {
    play_each(&rt, SCENES);
}

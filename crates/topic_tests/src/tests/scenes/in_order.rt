// Scenes, each with its offers by the rules of Exclusive and Failover.
ghost use Rattle.std.specs.Prelude.{IsTrue};
ghost use Rattle.position_core.specs.Kind.{is_in_order};

use super::member::Takes;
use super::scene::{Change, Scene, Stage, play, tell_of_all};
use super::subscription::Only;
use super::topic::Topic;
use dispatch_core::{Dispatcher, Offer};
use dispatch_single::Single;
use position_core::Kind;
use std::process::Abort;

/// The dispatcher is told who joins, and nothing else, so it finds what waits by the view alone.
#[derive(Drop)]
struct SingleStage {
    topic: Topic,
    dispatcher: Single,
}

/// A dispatcher of a subscription of the kind, which nobody has joined.
pub(super) fn begin<R: Abort + AllocGlobal>(rt: &R, kind: Kind) -> Single
    requires { IsTrue (is_in_order kind) }
{
    let only = Only::new(rt, kind);
    let begun = Single::begin(rt.alloc(), &only.alone());
    drop(only);
    begun.expect(rt, "no memory")
}

impl SingleStage {
    fn new<R: Abort + AllocGlobal>(rt: &R, kind: Kind, scene: &Scene) -> Self
        requires { IsTrue (is_in_order kind) }
    {
        let mut dispatcher = begin(rt, kind);
        let topic = Topic::new(rt, kind, scene);
        tell_of_all(rt, &mut dispatcher, &topic.view(), scene.members);
        SingleStage { topic, dispatcher }
    }
}

impl Stage for SingleStage {
    fn offer(&self) -> Option<Offer> {
        let view = self.topic.view();
        match view.subscription.kind() {
            Kind::Exclusive => self.dispatcher.offer(&view),
            Kind::Failover => self.dispatcher.offer(&view),
            Kind::Shared => None,
            Kind::KeyShared => None,
        }
    }

    fn make<R: Abort + AllocGlobal>(&mut self, rt: &R, change: Change, offer: Option<Offer>) {
        self.topic.make(rt, change, offer);
    }
}

/// Three messages that wait, and one member.
const PLAIN: Scene = Scene {
    says: "the first waiting message goes to the active member",
    durable: 3,
    keys: &[None; 3],
    members: &[(1, 0, Takes::Pushed(10))],
    steps: &[(Change::Begun, Some((0, 1)))],
};

const SCENES: &[Scene] = &[
    PLAIN,
    Scene {
        says: "of equal levels the one that joined first is served",
        members: &[(1, 5, Takes::Pushed(10)), (2, 5, Takes::Pushed(10))],
        ..PLAIN
    },
    Scene {
        says: "a better level takes over",
        members: &[(1, 5, Takes::Pushed(10)), (2, 4, Takes::Pushed(10))],
        steps: &[(Change::Begun, Some((0, 2)))],
        ..PLAIN
    },
    Scene {
        says: "a worse level does not",
        members: &[(1, 5, Takes::Pushed(10)), (2, 6, Takes::Pushed(10))],
        ..PLAIN
    },
    Scene {
        says: "level counts before number",
        members: &[
            (7, 2, Takes::Pushed(10)),
            (8, 3, Takes::Pushed(10)),
            (9, 0, Takes::Pushed(10)),
        ],
        steps: &[(Change::Begun, Some((0, 9)))],
        ..PLAIN
    },
    Scene {
        says: "a full window gets nothing",
        members: &[(1, 0, Takes::Pushed(1))],
        steps: &[(Change::Held(0, 1), None)],
        ..PLAIN
    },
    Scene {
        says: "nor does another member, then",
        members: &[(1, 0, Takes::Pushed(1)), (2, 1, Takes::Pushed(10))],
        steps: &[(Change::Held(0, 1), None)],
        ..PLAIN
    },
    Scene {
        says: "nothing is visible",
        durable: 0,
        steps: &[(Change::Begun, None)],
        ..PLAIN
    },
    Scene {
        says: "nobody is there",
        members: &[],
        steps: &[(Change::Begun, None)],
        ..PLAIN
    },
    Scene {
        says: "an acknowledged message is passed over",
        steps: &[(Change::Acknowledged(0), Some((1, 1)))],
        ..PLAIN
    },
    Scene {
        says: "a pending message is passed over, at whomever it is",
        steps: &[(Change::Held(0, 9), Some((1, 1)))],
        ..PLAIN
    },
    Scene {
        says: "both are passed over",
        steps: &[
            (Change::Acknowledged(1), Some((0, 1))),
            (Change::Held(0, 1), Some((2, 1))),
        ],
        ..PLAIN
    },
    Scene {
        says: "what waits is not visible",
        durable: 2,
        steps: &[
            (Change::Acknowledged(0), Some((1, 1))),
            (Change::Held(1, 1), None),
        ],
        ..PLAIN
    },
];

fn play_one<R: Abort + AllocGlobal>(rt: &R, kind: Kind, scene: &Scene)
    requires { IsTrue (is_in_order kind) }
{
    let mut stage = SingleStage::new(rt, kind, scene);
    play(rt, &mut stage, scene);
    drop(stage);
}

fn play_each<R: Abort + AllocGlobal>(rt: &R, scenes: &[Scene]) {
    for scene in scenes {
        play_one(rt, Kind::Failover, scene);
    }
    play_one(rt, Kind::Exclusive, &PLAIN);
}

#[test]
fn each_scene_has_its_offers(rt: HostRuntime) {
    play_each(&rt, SCENES);
}

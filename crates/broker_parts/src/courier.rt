// A courier at work: it moves dead letters, one at a time, with one topic's lock at a time.
ghost use Rattle.std.specs.Prelude.{◌≡◌, IfOk, IfSome, None, OnOk};
ghost use Rattle.position_core.specs.TopicName.{topic_text};
ghost use Rattle.dead_letters.specs.Moving.{target_of};

use crate::board::Board;
use crate::graves::Grave;
use crate::guarded::Guarded;
use crate::pause::{Due, Pause};
use crate::sides::{Sides, step_between};
use dead_letters::{Hand, Route, Stepped};
use delivery_machine::{Fault, Moment, Reply, TopicName};
use std::alloc::Global;
use std::sync::{Arc, Wait};
use std::time::Instant;

/// Where couriers are at work: who opens the topics that letters go to, and the board of all.
pub trait Opens<X: Guarded + Drop> {
    fn board(&self) -> &Board<Arc<X>>;

    /// The open topic of the name, which is made where it is not known.
    fn open_topic<R: Wait>(&self, rt: &R, name: &TopicName) -> Result<Arc<X>, Fault>
        ensures { IfOk result (λ topic. topic_text (X.named topic.value) ≡ topic_text name.now) };
}

/// When a courier goes on.
#[derive(Clone, Copy)]
enum Stay {
    /// At once.
    Goes,
    /// Once more of its target is stored.
    Stores,
    /// After a pause: it was refused.
    Pauses(Due),
    /// Never: it has ended.
    Over,
}

/// A courier under way.
#[derive(Drop)]
pub(crate) struct Courier<X: Drop> {
    route: Route,
    hand: Hand,
    sides: Sides<X>,
    /// The number of the grave that it was sent to.
    grave: u64,
    stay: Stay,
    /// The pause after the next refusal.
    pause: Pause,
}

/// The length up to which its target is to be stored, where it waits for that.
fn awaited_by(hand: &Hand) -> Option<u64> {
    match hand {
        Hand::Waits { letter: _, length } => Some(*length),
        _ => None,
    }
}

/// Whether less is stored than is waited for.
pub fn is_short(answer: &Result<Reply, Fault>, awaited: Option<u64>) -> bool {
    match (answer, awaited) {
        (Ok(Reply::Progress { durable, length: _ }), Some(length)) => *durable < length,
        _ => false,
    }
}

impl<X: Guarded + Drop> Courier<X> {
    /// One for the letters that died in the subscription. None for want of memory.
    pub(crate) fn new(alloc: Global, source: &Arc<X>, grave: &Grave) -> Option<Self> {
        let Ok(route) = Route::new(alloc, source.name(), &grave.name) else {
            return None;
        };
        match Arc::try_clone(source) {
            Ok(source) => Some(Courier {
                route,
                hand: Hand::Empty,
                sides: Sides::of(source),
                grave: grave.number,
                stay: Stay::Goes,
                pause: Pause::first(),
            }),
            Err(_) => {
                drop(route);
                None
            }
        }
    }

    /// After a step. A target is held no longer than there is a letter for it, and once a letter is moved the next refusal is a
    /// first one again.
    fn note(&mut self, was_ending: bool, stepped: Stepped) {
        if self.is_free() {
            self.sides.let_target_go();
        }
        if was_ending && stepped == Stepped::GoesOn {
            self.pause = Pause::first();
        }
    }

    /// It has nothing in its hand, and no producer is connected for it.
    fn is_free(&self) -> bool {
        matches!(&self.hand, Hand::Empty)
    }

    /// It makes a step as soon as it can.
    pub(crate) fn goes(&self) -> bool {
        matches!(self.stay, Stay::Goes)
    }

    pub(crate) fn is_over(&self) -> bool {
        matches!(self.stay, Stay::Over)
    }

    /// When its pause is over, where it has one.
    pub(crate) fn due(&self) -> Option<Due> {
        match self.stay {
            Stay::Pauses(due) => Some(due),
            _ => None,
        }
    }

    /// It goes on where its pause is over.
    pub(crate) fn wake(&mut self, time: Option<Instant>) {
        if let Stay::Pauses(due) = self.stay
            && due.left(time).is_none()
        {
            self.stay = Stay::Goes;
        }
    }

    /// It goes on where it waits until more of this topic is stored.
    pub(crate) fn call(&mut self, topic: &TopicName) {
        if matches!(self.stay, Stay::Stores) && self.moves_to(topic) {
            self.stay = Stay::Goes;
        }
    }

    fn moves_to(&self, topic: &TopicName) -> bool {
        match self.sides.target() {
            Some(target) => target.name().is(topic),
            None => false,
        }
    }

    /// It makes a step, and goes on with another, waits, pauses or ends.
    pub(crate) fn go_on<D: Opens<X>, R: Wait>(
        &mut self,
        rt: &R,
        house: &D,
        now: Moment,
        time: Option<Instant>,
    ) {
        match self.step(rt, house, now) {
            Stepped::GoesOn => {}
            Stepped::Waits => self.stay = Stay::Stores,
            Stepped::Ends => self.end(rt, house.board()),
            Stepped::Fails => self.put_back(rt, time),
        }
    }

    /// One step of a move: one event at one of the two topics. A target that cannot be opened is one that refused.
    fn step<D: Opens<X>, R: Wait>(&mut self, rt: &R, house: &D, now: Moment) -> Stepped {
        let opened = self.find_target(rt, house);
        let was_ending = matches!(&self.hand, Hand::Moved { letter: _ });
        let stepped = self.make_step(rt, house.board(), opened, now);
        self.note(was_ending, stepped);
        stepped
    }

    /// The topic that the letter goes to is open.
    fn find_target<D: Opens<X>, R: Wait>(&mut self, rt: &R, house: &D) -> Result<(), Fault>
        ensures opened { self.old.sides.target ≡ None → OnOk result (IfSome (target_of self.old.hand) (λ name. IfSome self.new.sides.target (λ topic. topic_text (X.named topic.value) ≡ topic_text name))) }
        ensures source { self.new.sides.source ≡ self.old.sides.source }
        ensures hand { self.new.hand ≡ self.old.hand }
    {
        if self.sides.target().is_some() {
            return Ok(());
        }
        let target = match self.hand.target() {
            Some(name) => house.open_topic(rt, name),
            None => return Ok(()),
        };
        match target {
            Ok(target) => {
                self.sides.set_target(target);
                Ok(())
            }
            Err(fault) => Err(fault),
        }
    }

    fn make_step<R: Wait>(
        &mut self,
        rt: &R,
        board: &Board<Arc<X>>,
        opened: Result<(), Fault>,
        now: Moment,
    ) -> Stepped {
        let awaited = awaited_by(&self.hand);
        let absent = opened.err().unwrap_or(Fault::NoSession);
        let mut at_source = self.sides.at_source(rt, board, awaited);
        let mut at_target = self.sides.at_target(rt, board, absent, awaited);
        step_between(
            &self.route,
            &mut self.hand,
            &mut at_source,
            &mut at_target,
            now,
        )
    }

    /// No letter is left. Where one was stored meanwhile, another courier is to be sent.
    fn end<R: Wait>(&mut self, rt: &R, board: &Board<Arc<X>>) {
        self.stay = Stay::Over;
        let wants = self.sides.source().release(rt, self.grave);
        board.grant(rt, self.sides.source(), wants);
    }

    /// The letter stays where it is. It tries again after a pause, if its topic and its subscription are there still, or if it
    /// has something in its hand that it is to put back first.
    fn put_back<R: Wait>(&mut self, rt: &R, time: Option<Instant>) {
        let source = self.sides.source();
        if self.is_free() && (source.is_over() || !source.has_grave(rt, self.grave)) {
            self.stay = Stay::Over;
        } else {
            self.stay = Stay::Pauses(self.pause.begin(time));
        }
    }
}

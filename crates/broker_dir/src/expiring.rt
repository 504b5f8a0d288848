// Subscriptions go that nobody uses: one whose consumers were never durable with the last of them, and any in which nobody has been
// for longer than the operator lets it.
ghost use Rattle.std.specs.Prelude.{◌≡◌, Any, Some, true};
ghost use Rattle.delivery_machine.specs.declared.event.Event.TheVariants.{DropSubscription};
ghost use Rattle.broker_parts.specs.Attendance.{is_over, is_unused_for};
ghost use Rattle.broker_dir.specs.Expiring.{MayDrop};
ghost use Rattle.broker_dir.specs.Trimming.{MayAnswer};

use crate::inside::Inside;
use crate::table::Table;
use crate::topic::Shared;
use crate::watching::Rules;
use broker_parts::{Board, Counts, Stage, Wants};
use delivery_machine::{Event, Opened, Reply, SubscriptionName};
use marks::Naming;
use session_bells::Bell;
use std::sync::{Arc, Wait};

impl<T: Opened + Drop, J: Naming, B: Bell + Drop> Inside<T, J, B> {
    /// The topic is asked to drop the subscription. Whether it did: it is refused where somebody is in it, or letters lie in it that
    /// are not moved, and (F1) for want of memory. A journal that is full begins anew before.
    fn drop_subscription(&mut self, subscription: SubscriptionName) -> bool
        ensures asks { MayAnswer (Some (DropSubscription subscription)) self.old.topic.cell.cell.state self.new.topic.cell.cell.state }
        ensures name { self.new.topic.name ≡ self.old.topic.name }
        ensures stage { self.new.stage ≡ self.old.stage }
    {
        if self.stage == Stage::Gone {
            drop(subscription);
            return false;
        }
        if self.cell().cell().is_full() {
            self.begin_anew();
        }
        let answer = self.hand_event(Event::DropSubscription { subscription });
        matches!(answer, Ok(Reply::Done))
    }

    /// A subscription goes that is over: nobody is in it any more, and no consumer was that is durable. Whether one did: where that is
    /// refused the next who leaves the topic asks again.
    pub(crate) fn drop_over(&mut self) -> bool
        ensures drops { MayDrop (λ name. Any (λ grave. (grave.name ≡ name) × (is_over grave.attendance ≡ true)) self.old.hearers.graves.graves.items) self.old.topic.cell.cell.state self.new.topic.cell.cell.state }
        ensures name { self.new.topic.name ≡ self.old.topic.name }
        ensures stage { self.new.stage ≡ self.old.stage }
    {
        let Some(name) = self.hearers.graves.over() else {
            return false;
        };
        let copy: Result<_, _> = name.clone();
        match copy {
            Ok(name) => self.drop_subscription(name),
            Err(_) => false,
        }
    }

    /// The subscription at the place goes, where nobody has been in it for more than so many milliseconds. Its name, where it went.
    fn expire_at(&mut self, place: usize, millis: u64) -> Option<SubscriptionName>
        ensures drops { MayDrop (λ name. Any (λ grave. (grave.name ≡ name) × (is_unused_for millis grave.attendance ≡ true)) self.old.hearers.graves.graves.items) self.old.topic.cell.cell.state self.new.topic.cell.cell.state }
        ensures name { self.new.topic.name ≡ self.old.topic.name }
        ensures stage { self.new.stage ≡ self.old.stage }
    {
        let Some(name) = self.hearers.graves.unused_at(place, millis) else {
            return None;
        };
        let copy: Result<_, _> = name.clone();
        let Ok(told) = copy else {
            return None;
        };
        let has_gone = match told.clone() {
            Ok(name) => self.drop_subscription(name),
            Err(_) => false,
        };
        if has_gone {
            Some(told)
        } else {
            drop(told);
            None
        }
    }
}

impl<T: Opened + Drop, J: Naming, B: Bell + Drop> Shared<T, J, B> {
    /// What the topic is asked once a minute, so many milliseconds after it was asked last: to let messages go that are too old, and
    /// subscriptions that nobody uses.
    fn tend<R: Wait>(&self, rt: &R, counts: &Counts, rules: &Rules, passed: u64) -> Wants {
        let mut guard = self.inside.lock(rt);
        let inside = &mut *guard;
        inside.trim(rules, 0);
        inside.hearers.graves.look(passed);
        if let Some(millis) = rules.expire() {
            self.expire_in(rt, counts, inside, millis);
        }
        Wants {
            store: inside.wants_storing(),
            thread: false,
        }
    }

    /// Each subscription goes in which nobody has been for more than so many milliseconds. From the last one on, since the last one
    /// comes to the place of one that goes.
    fn expire_in<R: Wait>(
        &self,
        rt: &R,
        counts: &Counts,
        inside: &mut Inside<T, J, B>,
        millis: u64,
    ) {
        let count = inside.hearers.graves.count();
        for passed in 0..count {
            if let Some(subscription) = inside.expire_at(count - 1 - passed, millis) {
                counts.note_expired(rt, &self.name, subscription);
            }
        }
    }
}

impl<T: Opened + Drop, J: Naming, B: Bell + Drop> Table<T, J, B> {
    /// Each open topic is asked, since messages grow old, and subscriptions are left, while nothing is stored.
    pub(crate) fn tend_each<R: Wait>(
        &self,
        rt: &R,
        board: &Board<Arc<Shared<T, J, B>>>,
        counts: &Counts,
        rules: &Rules,
        passed: u64,
    ) {
        for place in 0..self.count() {
            if let Some(topic) = self.at(place) {
                board.grant(rt, topic, topic.tend(rt, counts, rules, passed));
            }
        }
    }
}

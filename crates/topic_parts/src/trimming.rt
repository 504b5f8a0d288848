// How many of the first messages may go, and that they go.
ghost use Rattle.std.specs.Prelude.{◌≡◌, length};
ghost use Rattle.std.specs.List.{prefix_len};
ghost use Rattle.topic_subscriptions.specs.Done.{done_by, done_by_all};
ghost use Rattle.topic_subscriptions.specs.Placed.{sub_in};
ghost use Rattle.topic_parts.specs.Holding.{IsAt};
ghost use Rattle.topic_parts.specs.Parts.{log_of};

use crate::parts::Parts;
use position_core::Moment;
use topic_log::Remembered;
use topic_subscriptions::trim_each;

/// So many messages may be gone.
const MOST_GONE: u64 = 1 << 62;

/// So many messages go together.
const TOGETHER: u64 = 64;

impl Parts {
    ghost use Rattle.std.specs.Prelude.{◌≡◌, ◌+◌, ◌%◌, ◌^◌, ◌<◌, ◌≤◌, Some, length, min, nat_le, slice_get};
    ghost use Rattle.std.specs.List.{All};
    ghost use Rattle.position_core.specs.declared.message.Entry.{Entry};
    ghost use Rattle.delivery_machine.specs.Trimming.{free_at_front, going, trimmed};
    ghost use Rattle.delivery_machine.specs.WellFormed.{IsWellFormed};
    ghost use Rattle.dedup_core.specs.Sequences.{AgreesWith};
    ghost use Rattle.topic_log.specs.Written.{all_of};
    ghost use Rattle.topic_log.specs.Trimming.{IsRemembered};
    ghost use Rattle.topic_parts.specs.Parts.{AreTied, state_of};
    ghost use Rattle.topic_parts.specs.Trimming.{MayGo};

    /// How many of the first messages the subscription at the place has done with. Takes a step for each of
    /// its dead letters.
    fn done_at(&self, place: usize) -> u64
        requires tied { AreTied self.now }
        requires well { IsWellFormed (state_of self.now) }
        requires within { place < length self.now.subscriptions.items }
        ensures { IsAt self.now place (λ p. result ≡ done_by (sub_in (log_of self.now) p) (log_of self.now)) }
    {
        let _length = self.log.len();
        let subscription = &self.subscriptions[place];
        let open = subscription.mark_delete_end();
        match subscription.first_dead() {
            None => open,
            Some(position) => match self.log.index_of(position) {
                None => open,
                Some(index) => open.min(index as u64),
            },
        }
    }

    /// How many of the first messages all subscriptions have done with.
    fn done_by_all(&self) -> u64
        requires tied { AreTied self.now }
        requires well { IsWellFormed (state_of self.now) }
        ensures { result ≡ done_by_all (state_of self.now).subscriptions (log_of self.now) }
    {
        let mut done = self.log.len() as u64;
        'each: for place in 0..self.subscriptions.len() {
            done = done.min(self.done_at(place));
        }
        done
    }

    /// Whether a message stands at the index that is not later than the moment.
    fn is_past(&self, index: u64, before: Moment) -> bool
        ensures { (e : Entry) → slice_get (log_of self.now) index ≡ Some e → result ≡ nat_le e.time before }
    {
        match self.log.get(index as usize) {
            Some(message) => message.entry().time.millis() <= before.millis(),
            None => false,
        }
    }

    /// How many of the first messages, so many at most, are not later than the moment.
    fn past(&self, before: Moment, most: u64) -> u64
        requires { most ≤ length (log_of self.now) }
        ensures { result ≡ min most (prefix_len (λ e. nat_le e.time before) (log_of self.now)) }
    {
        let mut past = 0;
        'each: while past < most && self.is_past(past, before) {
            past += 1;
        }
        past
    }

    /// How many messages, so many at most, stand before the first that may not go.
    fn free_at_front(&self, before: Moment, most: u64) -> u64
        requires tied { AreTied self.now }
        requires well { IsWellFormed (state_of self.now) }
        ensures { result ≡ min most (free_at_front (state_of self.now) before) }
    {
        if self.subscriptions.is_empty() {
            return 0;
        }
        let stored = self.log.durable() as u64;
        self.past(before, most.min(stored).min(self.done_by_all()))
    }

    /// How many messages go where so many have to stay, those after the moment too, and so many may go at most.
    /// Takes a step for each subscription, each dead letter, and each message that goes.
    pub fn going(&self, keep: u64, before: Moment, most: u64) -> u64
        requires tied { AreTied self.now }
        requires well { IsWellFormed (state_of self.now) }
        ensures value { result ≡ going (state_of self.now) keep before most }
        ensures may { 0 < result → MayGo self.now result }
    {
        let _length = self.log.len();
        let room = MOST_GONE - self.log.gone();
        let others = (self.log.len() as u64).saturating_sub(keep);
        let most = most.min(room).min(others);
        let free = self.free_at_front(before, most + 1);
        most.min(free.saturating_sub(1)) / TOGETHER * TOGETHER
    }

    /// The first messages go, so many, which are acknowledged in every subscription. Takes no memory.
    pub fn trim(&mut self, count: usize, remembered: Remembered)
        requires tied { AreTied self.old }
        requires may { MayGo self.old count }
        requires agrees { AgreesWith (all_of self.old.log) self.old.log.numbers }
        requires remembered { IsRemembered self.old.log count remembered }
        ensures state { state_of self.new ≡ trimmed count (state_of self.old) }
        ensures tied { AreTied self.new }
        ensures agrees { AgreesWith (all_of self.new.log) self.new.log.numbers }
        ensures members { self.new.members ≡ self.old.members }
        ensures many { length self.new.subscriptions.items ≡ length self.old.subscriptions.items }
    {
        let _length = self.log.len();
        self.log.trim(count, remembered);
        trim_each(&mut self.subscriptions, count as u64);
    }
}

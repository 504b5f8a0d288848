// The members of a topic, and the number of the next one.
ghost use Rattle.std.specs.Prelude.{◌≡◌, ℕ, ◌+◌, ◌<◌, ◌≤◌, ◌^◌, [], ◌∷◌, ◌++◌, List, length, map, slice_get, IfOk, OnOk, OnErr};
ghost use Rattle.std.specs.List.{filter, find};
ghost use Rattle.std.specs.Option.{option_copied, option_map_or};
ghost use Rattle.delivery_machine.specs.State.{State};
ghost use Rattle.delivery_machine.specs.Words.{changed, emptied_at, is_at, is_member, removed};
ghost use Rattle.delivery_machine.specs.Run.{Answers};
ghost use Rattle.delivery_machine.specs.declared.event.Event.TheVariants.{Collect, Permit};
ghost use Rattle.topic_members.specs.Members.{NumbersRise, joining, leaving_out, pushed, shortened, spending};
ghost use Rattle.topic_members.specs.Joined.{emptied_in, numbers_of};

use crate::member::{Member, Terms};
use crate::members::{member_at, member_near};
use crate::{changing, line};
use delivery_machine::{Deliveries, Delivery, Reply};
use position_core::{ConsumerNumber, Permits, Position, SubscriptionName, TopicName};
use std::alloc::{AllocError, Global};
use std::marker::Model;

/// The members of all subscriptions of a topic, in the order of joining. A call on one member takes the
/// logarithm of their number, but for `remove`.
pub struct Members {
    alloc: Global,
    list: Vec<Member>,
    next: ConsumerNumber,
}

impl Drop for Members {
    fn drop(self) {
        let Members {
            alloc: _,
            list: _,
            next: _,
        } = self;
    }
}

impl Model for Members {
    ghost use Rattle.std.specs.Prelude.{◌-◌, vec_capacity, vec_len};
    ghost use Rattle.topic_members.specs.Joined.{AreNumbered, Joined, numbers_of};

    ghost Value = { Joined };

    ghost view = { λ m. record { members = m.list.items; next = m.next; room = vec_capacity m.list - vec_len m.list } };

    ghost invariant = { λ m. AreNumbered (numbers_of m.list.items) m.next };
}

impl Members {
    /// Without members, and with 1 as the first one's number.
    pub fn new(alloc: Global) -> Self
        ensures none { result.members ≡ [] }
        ensures first { result.next ≡ 1 }
    {
        Members {
            alloc,
            list: Vec::new(alloc),
            next: 1,
        }
    }

    /// The number of the next one to join.
    pub fn next(&self) -> ConsumerNumber
        ensures value { result ≡ self.now.next }
        ensures bounded { self.now.next ≤ 2 ^ 63 }
    {
        self.next
    }

    /// How many there are. Their numbers rise.
    pub fn len(&self) -> usize
        ensures value { result ≡ length self.now.members }
        ensures rising { NumbersRise self.now.members }
    {
        self.list.len()
    }

    /// The member at a place.
    pub fn at(&self, place: usize) -> Option<&Member>
        ensures { option_copied result ≡ slice_get self.now.members place }
    {
        self.list.get(place)
    }

    /// The member of the number.
    pub fn get(&self, number: ConsumerNumber) -> Option<&Member>
        ensures { option_copied result ≡ find (is_member number) self.now.members }
    {
        member_at(&self.list, number)
    }

    /// The same at once where it stands at the place.
    pub fn get_near(&self, number: ConsumerNumber, place: usize) -> Option<&Member>
        ensures { option_copied result ≡ find (is_member number) self.now.members }
    {
        member_near(&self.list, number, place)
    }

    /// Makes room for one more.
    pub fn reserve(&mut self) -> Result<(), AllocError>
        ensures room { OnOk result (0 < self.new.room) }
        ensures members { self.new.members ≡ self.old.members }
        ensures next { self.new.next ≡ self.old.next }
    {
        self.list.reserve(1)
    }

    /// Puts a further member last, for which there is room, and answers its number. Takes no memory.
    pub fn add_reserved(
        &mut self,
        subscription: SubscriptionName,
        terms: Terms,
        dead_topic: TopicName,
    ) -> ConsumerNumber
        requires room { 0 < self.old.room }
        requires left { self.old.next < 2 ^ 63 }
        ensures number { result ≡ self.old.next }
        ensures members { self.new.members ≡ self.old.members ++ joining self.old.next subscription terms dead_topic ∷ [] }
        ensures next { self.new.next ≡ self.old.next + 1 }
    {
        let number = self.next;
        self.list.push_reserved(Member::new(self.alloc, number, subscription, terms, dead_topic));
        self.next = number + 1;
        number
    }

    /// Takes back the member that was added last: the next one gets its number.
    pub fn take_last(&mut self)
        ensures { (members : List Member) (last : Member) → self.old.members ≡ members ++ last ∷ [] → (self.new.members ≡ members) × (self.new.next ≡ last.number) }
    {
        if let Some(last) = self.list.pop() {
            self.next = last.number();
        }
    }

    /// Takes the member out.
    pub fn remove(&mut self, number: ConsumerNumber) -> Option<Member>
        ensures taken { result ≡ find (is_member number) self.old.members }
        ensures members { self.new.members ≡ removed (is_member number) self.old.members }
        ensures next { self.new.next ≡ self.old.next }
    {
        changing::remove(&mut self.list, number)
    }

    /// Gives the member a message. Nothing changes where there is no memory.
    pub fn give(&mut self, number: ConsumerNumber, delivery: Delivery) -> Result<(), AllocError>
        ensures ok { OnOk result (self.new.members ≡ changed (is_member number) (pushed delivery) self.old.members) }
        ensures err { OnErr result (self.new.members ≡ self.old.members) }
        ensures next { self.new.next ≡ self.old.next }
    {
        changing::give(&mut self.list, number, delivery)
    }

    /// Takes back what the member was given last.
    pub fn take_back(&mut self, number: ConsumerNumber)
        ensures members { self.new.members ≡ changed (is_member number) shortened self.old.members }
        ensures next { self.new.next ≡ self.old.next }
    {
        changing::take_back(&mut self.list, number);
    }

    /// Takes the credit for one message, where the member pulls.
    pub fn spend(&mut self, number: ConsumerNumber)
        ensures members { self.new.members ≡ changed (is_member number) spending self.old.members }
        ensures next { self.new.next ≡ self.old.next }
    {
        changing::spend(&mut self.list, number);
    }

    /// Lets the member be sent so many further messages.
    pub fn permit(&mut self, number: ConsumerNumber, permits: Permits) -> Reply
        ensures answers { (s : State) → s.members ≡ self.old.members → Answers s (Permit number permits) result (record s { members = self.new.members }) }
        ensures next { self.new.next ≡ self.old.next }
    {
        changing::permit(&mut self.list, number, permits)
    }

    /// Hands over what the member was sent.
    pub fn collect(&mut self, number: ConsumerNumber) -> Reply
        ensures answers { (s : State) → s.members ≡ self.old.members → Answers s (Collect number) result (record s { members = self.new.members }) }
        ensures next { self.new.next ≡ self.old.next }
    {
        changing::collect(self.alloc, &mut self.list, number)
    }

    /// What the member was sent and has not collected.
    pub fn out_copy(&self, number: ConsumerNumber) -> Result<Deliveries, AllocError>
        ensures { IfOk result (λ out. out ≡ option_map_or (λ m. m.out) (find (is_member number) self.now.members) []) }
    {
        match self.get(number) {
            Some(member) => member.out_copy(),
            None => Ok(Deliveries::new(self.alloc)),
        }
    }

    /// Leaves out the member's copies of the messages.
    pub fn leave_out(&mut self, number: ConsumerNumber, positions: &[Position])
        ensures members { self.new.members ≡ changed (is_member number) (leaving_out positions.now) self.old.members }
        ensures next { self.new.next ≡ self.old.next }
    {
        changing::leave_out(&mut self.list, number, positions);
    }

    /// Leaves nothing to collect for the members of the line.
    pub fn empty_those(&mut self, line: &[ConsumerNumber])
        ensures members { self.new.members ≡ map (emptied_in line.now) self.old.members }
        ensures at { (name : List ℕ) → line.now ≡ numbers_of (filter (is_at name) self.old.members) → self.new.members ≡ map (emptied_at name) self.old.members }
        ensures next { self.new.next ≡ self.old.next }
    {
        line::empty_those(&mut self.list, line);
    }
}

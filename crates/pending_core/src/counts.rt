// How many messages are at each consumer.
ghost use Rattle.std.specs.Prelude.{◌≡◌, ◌+◌, ◌-◌, ◌^◌, ◌<◌, [], IfOk, IfErr, OnOk, OnErr};
ghost use Rattle.pending_core.specs.Counts.{number_at, IsGapFor, IsPlaceOf, NumberChanges};

use position_core::ConsumerNumber;
use std::alloc::{AllocError, Global};
use std::marker::Model;

/// The consumers that have messages, in the order of their numbers, each with how many it has.
#[derive(Drop)]
pub(crate) struct Counts {
    list: Vec<(ConsumerNumber, usize)>,
}

impl Model for Counts {
    ghost use Rattle.std.specs.Prelude.{ℕ, List};
    ghost use Rattle.pending_core.specs.Counts.{ConsumersRise};

    ghost Value = { List (ℕ × ℕ) };

    ghost view = { λ c. c.list.items };

    ghost invariant = { λ c. ConsumersRise c.list.items };
}

impl Counts {
    pub(crate) fn new(alloc: Global) -> Self
        ensures { result ≡ [] }
    {
        Counts {
            list: Vec::new(alloc),
        }
    }

    /// Where the consumer stands, or would stand.
    fn search(&self, consumer: ConsumerNumber) -> Result<usize, usize>
        ensures found { IfOk result (IsPlaceOf self.now consumer) }
        ensures absent { IfErr result (IsGapFor self.now consumer) }
    {
        self.list
            .binary_search_by_key(&consumer, |&(other, _)| other)
    }

    pub(crate) fn number(&self, consumer: ConsumerNumber) -> usize
        ensures { result ≡ number_at self.now consumer }
    {
        match self.search(consumer) {
            Ok(place) => self.list[place].1,
            Err(_) => 0,
        }
    }

    /// The same at once where the consumer stands at the place.
    pub(crate) fn number_near(&self, consumer: ConsumerNumber, place: usize) -> usize
        ensures { result ≡ number_at self.now consumer }
    {
        match self.list.get(place) {
            Some(pair) => {
                if pair.0 == consumer {
                    pair.1
                } else {
                    self.number(consumer)
                }
            }
            None => self.number(consumer),
        }
    }

    pub(crate) fn count_one_more(&mut self, consumer: ConsumerNumber) -> Result<(), AllocError>
        requires { number_at self.old consumer + 1 < 2 ^ 64 }
        ensures ok { OnOk result (NumberChanges consumer (number_at self.old consumer + 1) self.old self.new) }
        ensures err { OnErr result (self.new ≡ self.old) }
    {
        match self.search(consumer) {
            Ok(place) => {
                let more = self.list[place].1 + 1;
                self.set(consumer, place, more);
                Ok(())
            }
            Err(place) => Ok(self.list.insert(place, (consumer, 1))?),
        }
    }

    pub(crate) fn count_one_less(&mut self, consumer: ConsumerNumber)
        ensures { NumberChanges consumer (number_at self.old consumer - 1) self.old self.new }
    {
        match self.search(consumer) {
            Ok(place) => {
                let less = self.list[place].1.saturating_sub(1);
                self.set(consumer, place, less);
            }
            Err(_) => (),
        }
    }

    /// Keeps another number of the consumer that stands at the place. One with none is not there.
    fn set(&mut self, consumer: ConsumerNumber, place: usize, number: usize)
        requires { IsPlaceOf self.old consumer place }
        ensures { NumberChanges consumer number self.old self.new }
    {
        if number == 0 {
            self.list.remove(place);
        } else {
            self.list[place] = (consumer, number);
        }
    }

    pub(crate) fn clear(&mut self)
        ensures { self.new ≡ [] }
    {
        self.list.clear();
    }
}

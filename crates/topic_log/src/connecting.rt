// Producers connect to a topic and leave it.
ghost use Rattle.std.specs.Prelude.{◌≡◌, IfOk};

use crate::names::{auto_name, free_from, free_gap, left_of};
use crate::producer::{Producer, drop_producer, is_connected};
use crate::topic_log::TopicLog;
use delivery_machine::Reply;
use position_core::{Base, Fault, ProducerName, ProducerNumber};
use std::alloc::{AllocError, Global};

impl TopicLog {
    ghost use Rattle.std.specs.Prelude.{◌≡◌, ◌<◌, ◌^◌, ◌++◌, ◌+◌, ◌∷◌, [], ◌||◌, nat_le, length, IfOk, OnOk, OnErr};
    ghost use Rattle.delivery_machine.specs.State.{State};
    ghost use Rattle.delivery_machine.specs.Run.{Answers};
    ghost use Rattle.delivery_machine.specs.Refusals.{is_busy, is_used_up};
    ghost use Rattle.delivery_machine.specs.Producing.{IsGiven, IsLeastFree};
    ghost use Rattle.delivery_machine.specs.declared.event.Event.TheVariants.{AddProducer, DropProducer};
    ghost use Rattle.dedup_core.specs.Sequences.{AgreesWith};
    ghost use Rattle.topic_log.specs.Written.{all_of, written_in};

    /// Whether the name that is asked for, if any, is connected.
    fn is_busy(&self, asked: &Option<ProducerName>) -> bool
        ensures { (s : State) → result ≡ is_busy (written_in self.now s) asked.now }
    {
        match asked {
            Some(name) => is_connected(&self.producers, name),
            None => false,
        }
    }

    /// Whether as many producers are connected as may be, or no number is left for one.
    fn has_all_producers(&self) -> bool
        ensures { result ≡ (nat_le 256 (length self.now.producers) || is_used_up self.now.next_producer) }
    {
        self.producers.len() >= 256 || self.next_producer >= 1 << 63
    }

    /// The least number of which the topic may make a name. A name that has messages is passed over once, and a gap
    /// is looked at each time, of which there are at most as many as producers may be connected.
    fn free_number(&mut self) -> Result<u64, AllocError>
        requires { AgreesWith (all_of self.old) self.old.numbers }
        ensures free { IfOk result (λ n. (s : State) → IsLeastFree (written_in self.old s) n) }
        ensures same { self.new ≡ self.old }
    {
        let gaps = left_of(self.alloc, &self.sequences, &self.gaps)?;
        if let Some(number) = free_gap(self.alloc, &self.sequences, &self.producers, &gaps)? {
            return Ok(number);
        }
        let (gaps, number) = free_from(
            self.alloc,
            &self.sequences,
            &self.producers,
            self.first_auto,
            gaps,
        )?;
        self.gaps = gaps;
        self.first_auto = number;
        Ok(number)
    }

    /// The name that was asked for, or else one of the topic's making with its number.
    fn given_name(
        &mut self,
        asked: &Option<ProducerName>,
    ) -> Result<(ProducerName, Option<u64>), AllocError>
        requires { AgreesWith (all_of self.old) self.old.numbers }
        ensures given { IfOk result (λ given. (s : State) → IsGiven (written_in self.old s) asked.now given.0 given.1) }
        ensures same { self.new ≡ self.old }
    {
        match asked {
            Some(name) => Ok((name.clone()?, None)),
            None => {
                let number = self.free_number()?;
                Ok((auto_name(self.alloc, number)?, Some(number)))
            }
        }
    }

    /// Connects a producer. Nothing changes where there is no memory.
    fn connect(&mut self, name: ProducerName, base: Base) -> Result<(), AllocError>
        requires { self.old.next_producer < 2 ^ 63 }
        ensures ok { OnOk result (self.new ≡ record self.old { producers = self.old.producers ++ record { number = self.old.next_producer; name = name; base = base } ∷ []; next_producer = self.old.next_producer + 1 }) }
        ensures err { OnErr result (self.new ≡ self.old) }
    {
        self.producers
            .push(Producer::new(self.next_producer, name, base))?;
        self.next_producer += 1;
        Ok(())
    }

    /// Connects a producer, under a name of the topic's making where it asks for none.
    pub fn add_producer(&mut self, asked: &Option<ProducerName>, base: Base) -> Reply
        requires { AgreesWith (all_of self.old) self.old.numbers }
        ensures answers { (s : State) → Answers (written_in self.old s) (AddProducer asked.now base) result (written_in self.new s) }
        ensures gone { self.new.gone ≡ self.old.gone }
        ensures authors { self.new.authors ≡ self.old.authors }
        ensures retention { self.new.retention ≡ self.old.retention }
        ensures log { self.new.log ≡ self.old.log }
        ensures numbers { self.new.numbers ≡ self.old.numbers }
        ensures durable { self.new.durable ≡ self.old.durable }
    {
        if self.is_busy(asked) {
            return Reply::Refused(Fault::ProducerBusy);
        }
        if self.has_all_producers() {
            return Reply::Refused(Fault::TooMany);
        }
        let Ok((name, auto)) = self.given_name(asked) else {
            return Reply::Refused(Fault::NoMemory);
        };
        let producer = self.next_producer;
        let last = self.last_number(&name, base);
        if self.connect(name, base).is_err() {
            return Reply::Refused(Fault::NoMemory);
        }
        Reply::ProducerAdded {
            producer,
            auto,
            last,
        }
    }

    /// The producer leaves. Its messages and their numbers stay.
    pub fn drop_producer(&mut self, producer: ProducerNumber) -> Reply
        ensures answers { (s : State) → Answers (written_in self.old s) (DropProducer producer) result (written_in self.new s) }
        ensures gone { self.new.gone ≡ self.old.gone }
        ensures authors { self.new.authors ≡ self.old.authors }
        ensures retention { self.new.retention ≡ self.old.retention }
        ensures log { self.new.log ≡ self.old.log }
        ensures numbers { self.new.numbers ≡ self.old.numbers }
        ensures durable { self.new.durable ≡ self.old.durable }
    {
        if drop_producer(&mut self.producers, producer) {
            Reply::Done
        } else {
            Reply::Refused(Fault::NoSession)
        }
    }
}

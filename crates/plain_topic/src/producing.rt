// Producers and the log: connecting, leaving, publishing, storing.
ghost use Rattle.std.specs.Prelude.{◌≡◌, ◌++◌, IfOk, OnOk, map};

use crate::lists::Lists;
use delivery_machine::{Author, Reply};
use plain_lists::{
    Producer, auto_name, drop_producer, is_connected, least_free, producer_at, store_all,
    store_all_to,
};
use plain_queries::{last_entry, last_sequence};
use position_core::{
    Base, Body, Entry, Fault, Message, Moment, Ordinal, Position, ProducerName, ProducerNumber,
};
use std::alloc::{AllocError, Global};

fn connected_names(alloc: Global, producers: &[Producer]) -> Result<Vec<ProducerName>, AllocError>
    ensures { IfOk result (λ names. names.items ≡ map (λ p. p.name) producers.now) }
{
    let mut names = Vec::new(alloc);
    for producer in producers {
        names.push(producer.name().clone()?)?;
    }
    Ok(names)
}

fn add_authors(names: &mut Vec<ProducerName>, authors: &[Author]) -> Result<(), AllocError>
    ensures { OnOk result (names.new.items ≡ names.old.items ++ map (λ a. a.name) authors.now) }
{
    for author in authors {
        names.push(author.name.clone()?)?;
    }
    Ok(())
}

fn add_writers(names: &mut Vec<ProducerName>, log: &[Message]) -> Result<(), AllocError>
    ensures { OnOk result (names.new.items ≡ names.old.items ++ map (λ e. e.producer) log.now) }
{
    for message in log {
        names.push(message.entry().producer.clone()?)?;
    }
    Ok(())
}

fn message_of(
    alloc: Global,
    sender: &ProducerName,
    position: Position,
    sequence: i64,
    body: &Body,
    now: Moment,
) -> Result<Message, AllocError>
    ensures { IfOk result (λ e. e ≡ record { position = position; producer = sender.now; sequence = sequence; time = now; body = body.now }) }
{
    let entry = Entry {
        position,
        producer: sender.clone()?,
        sequence,
        time: now,
        body: body.clone()?,
    };
    Message::new(alloc, entry)
}

impl Lists {
    ghost use Rattle.std.specs.Prelude.{◌≡◌, ◌<◌, ◌^◌, IfOk, OnOk, OnErr};
    ghost use Rattle.delivery_machine.specs.Run.{Answers};
    ghost use Rattle.delivery_machine.specs.Words.{last_sequence, next_position};
    ghost use Rattle.delivery_machine.specs.Refusals.{adding_refused, is_busy, is_full};
    ghost use Rattle.delivery_machine.specs.Producing.{IsGiven, IsLeastFree, with_producer};
    ghost use Rattle.delivery_machine.specs.declared.event.Event.TheVariants.{AddProducer, DropProducer, Progress, Publish, Stored, StoredTo};
    ghost use Rattle.plain_topic.specs.StateOf.{state_of};
    ghost use Rattle.plain_topic.specs.Names.{names_used};

    /// Whether the name that is asked for, if any, is connected.
    fn is_busy(&self, name: &Option<ProducerName>) -> bool
        ensures { result ≡ is_busy (state_of self.now) name.now }
    {
        match name {
            Some(name) => is_connected(&self.producers, name),
            None => false,
        }
    }

    /// Why the producer is turned away, if it is.
    fn adding_refused(&self, name: &Option<ProducerName>) -> Option<Fault>
        ensures { result ≡ adding_refused (state_of self.now) name.now }
    {
        if self.is_busy(name) {
            return Some(Fault::ProducerBusy);
        }
        if self.producers.len() >= 256 || self.next_producer >= 1 << 63 {
            return Some(Fault::TooMany);
        }
        None
    }

    /// The names of the connected producers, those that are remembered, and those of the producers of
    /// the log.
    fn names_used(&self) -> Result<Vec<ProducerName>, AllocError>
        ensures { IfOk result (λ names. names.items ≡ names_used (state_of self.now)) }
    {
        let mut names = connected_names(self.alloc, &self.producers)?;
        add_authors(&mut names, &self.authors)?;
        add_writers(&mut names, &self.log)?;
        Ok(names)
    }

    /// The least number of which the topic may make a name.
    fn free_number(&self) -> Result<u64, AllocError>
        ensures { IfOk result (IsLeastFree (state_of self.now)) }
    {
        least_free(self.alloc, self.names_used()?)
    }

    /// The name that was asked for, or else one of the topic's making with its number.
    fn given_name(
        &self,
        asked: &Option<ProducerName>,
    ) -> Result<(ProducerName, Option<u64>), AllocError>
        ensures { IfOk result (λ given. IsGiven (state_of self.now) asked.now given.0 given.1) }
    {
        match asked {
            Some(name) => Ok((name.clone()?, None)),
            None => {
                let number = self.free_number()?;
                Ok((auto_name(self.alloc, number)?, Some(number)))
            }
        }
    }

    /// Connects a producer. Nothing changes where there is no memory.
    fn connect(&mut self, name: ProducerName, base: Base) -> Result<(), AllocError>
        requires { (state_of self.old).next_producer < 2 ^ 63 }
        ensures ok { OnOk result (state_of self.new ≡ with_producer (state_of self.old) (record { number = (state_of self.old).next_producer; name = name; base = base })) }
        ensures err { OnErr result (state_of self.new ≡ state_of self.old) }
    {
        self.producers
            .push(Producer::new(self.next_producer, name, base))?;
        self.next_producer += 1;
        Ok(())
    }

    pub(crate) fn add_producer(&mut self, asked: &Option<ProducerName>, base: Base) -> Reply
        ensures { Answers (state_of self.old) (AddProducer asked.now base) result (state_of self.new) }
    {
        if let Some(fault) = self.adding_refused(asked) {
            return Reply::Refused(fault);
        }
        let Ok((name, auto)) = self.given_name(asked) else {
            return Reply::Refused(Fault::NoMemory);
        };
        let producer = self.next_producer;
        let last = last_sequence(&self.authors, &self.log, &name, base.number());
        if self.connect(name, base).is_err() {
            return Reply::Refused(Fault::NoMemory);
        }
        Reply::ProducerAdded {
            producer,
            auto,
            last,
        }
    }

    pub(crate) fn drop_producer(&mut self, producer: ProducerNumber) -> Reply
        ensures { Answers (state_of self.old) (DropProducer producer) result (state_of self.new) }
    {
        if drop_producer(&mut self.producers, producer) {
            Reply::Done
        } else {
            Reply::Refused(Fault::NoSession)
        }
    }

    fn next_position(&self) -> Position
        ensures { result ≡ next_position (state_of self.now) }
    {
        let last_in_ledger = u64::from(self.ledger_size.get()) - 1;
        match last_entry(&self.log, self.ledger) {
            None => Position {
                ledger: self.ledger,
                entry: 0,
            },
            Some(entry) if entry < last_in_ledger => Position {
                ledger: self.ledger,
                entry: entry + 1,
            },
            Some(_) => Position {
                ledger: self.ledger + 1,
                entry: 0,
            },
        }
    }

    fn is_full(&self) -> bool
        ensures { result ≡ is_full (state_of self.now) }
    {
        self.log.len() >= 1_048_576 || self.next_position().ledger > 1 << 62
    }

    pub(crate) fn publish(
        &mut self,
        producer: ProducerNumber,
        sequence: i64,
        body: &Body,
        now: Moment,
    ) -> Reply
        ensures { Answers (state_of self.old) (Publish producer sequence body.now now) result (state_of self.new) }
    {
        let length = self.had();
        let full = self.is_full();
        let position = self.next_position();
        let Some(sender) = producer_at(&self.producers, producer) else {
            return Reply::Refused(Fault::NoSession);
        };
        let base = sender.base().number();
        if sequence <= last_sequence(&self.authors, &self.log, sender.name(), base) {
            return Reply::Duplicate { length };
        }
        if full {
            return Reply::Refused(Fault::TopicFull);
        }
        let Ok(message) = message_of(self.alloc, sender.name(), position, sequence, body, now)
        else {
            return Reply::Refused(Fault::NoMemory);
        };
        if self.log.push(message).is_err() {
            return Reply::Refused(Fault::NoMemory);
        }
        self.ledger = position.ledger;
        Reply::Published {
            position,
            length: length + 1,
        }
    }

    pub(crate) fn stored(&mut self) -> Reply
        ensures { Answers (state_of self.old) Stored result (state_of self.new) }
    {
        self.durable = self.log.len();
        store_all(&mut self.subscriptions);
        Reply::Durable(self.had())
    }

    pub(crate) fn stored_to(&mut self, length: u64, ordinal: Ordinal) -> Reply
        ensures { Answers (state_of self.old) (StoredTo length ordinal) result (state_of self.new) }
    {
        let kept = length.saturating_sub(self.gone);
        let kept = kept.min(self.log.len() as u64) as usize;
        self.durable = self.durable.max(kept);
        store_all_to(&mut self.subscriptions, ordinal);
        Reply::Durable(self.gone + self.durable as u64)
    }

    pub(crate) fn progress(&self) -> Reply
        ensures { Answers (state_of self.now) Progress result (state_of self.now) }
    {
        Reply::Progress {
            durable: self.gone + self.durable as u64,
            length: self.had(),
        }
    }
}

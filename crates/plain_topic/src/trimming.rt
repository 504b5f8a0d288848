// Trimming: the first messages go, which no subscription needs. And the topic's own rule of what is kept.
ghost use Rattle.std.specs.Prelude.{◌≡◌, ◌≤◌, codes, drop, length, map, nat_eq};
ghost use Rattle.std.specs.List.{list_any, starts_with};
ghost use Rattle.delivery_machine.specs.Words.{is_by, signed};

use crate::lists::Lists;
use crate::saving::authors_of;
use delivery_machine::{Author, Reply, Retention};
use plain_lists::{forget_messages, is_connected, positions_of, remember_all};
use plain_queries::free_at_front;
use position_core::{Fault, Message, Moment, ProducerName};
use std::alloc::AllocError;

/// This many messages were given numbers, and no more.
const MOST_GONE: u64 = 1 << 62;

fn is_one_named(messages: &[Message], name: &ProducerName) -> bool
    ensures { result ≡ list_any (λ e. is_by name.now (signed e)) messages.now }
{
    messages
        .iter()
        .any(|message| message.entry().producer.is(name))
}

/// Whether one of the messages has the name.
fn is_among(messages: &[Message], name: &ProducerName) -> bool
    ensures { result ≡ list_any (is_by name.now) (map signed messages.now) }
{
    is_one_named(messages, name)
}

/// Whether a producer of the name moves dead letters.
fn is_courier(name: &ProducerName) -> bool
    ensures { result ≡ starts_with nat_eq name.now (codes "dlq/") }
{
    name.as_str().starts_with("dlq/")
}

fn drop_front(log: &mut Vec<Message>, count: usize)
    requires { count ≤ length log.old.items }
    ensures { log.new.items ≡ drop count log.old.items }
{
    log.drain(..count);
}

impl Lists {
    ghost use Rattle.std.specs.Prelude.{◌≡◌, ◌+◌, ◌≤◌, ◌^◌, IfOk, OnOk, OnErr, length, drop, take};
    ghost use Rattle.delivery_machine.specs.Run.{Answers};
    ghost use Rattle.delivery_machine.specs.Trimming.{free_at_front, going, is_lasting, most_going, not_forgotten, remembered, trimmed};
    ghost use Rattle.delivery_machine.specs.declared.event.Event.TheVariants.{SetRetention, Trim};
    ghost use Rattle.plain_topic.specs.StateOf.{state_of};

    /// How many messages may go at most, but for how many are asked for.
    fn most_going(&self, keep: u64, before: Moment) -> u64
        ensures value { result ≡ most_going (state_of self.now) keep before }
        ensures logged { result ≤ length (state_of self.now).log }
        ensures visible { result ≤ (state_of self.now).durable }
    {
        let free = free_at_front(&self.subscriptions, self.visible(), before);
        let behind = (self.log.len() as u64).saturating_sub(keep);
        (free.saturating_sub(1) as u64).min(behind)
    }

    /// How many messages go.
    fn going(&self, keep: u64, before: Moment, most: u64) -> u64
        ensures value { result ≡ going (state_of self.now) keep before most }
        ensures logged { result ≤ length (state_of self.now).log }
        ensures visible { result ≤ (state_of self.now).durable }
        ensures room { (state_of self.now).gone + result ≤ 2 ^ 62 }
    {
        let most = most.min(MOST_GONE - self.gone);
        most.min(self.most_going(keep, before)) / 64 * 64
    }

    /// Whether the name is never forgotten, where these messages stay.
    fn is_lasting(&self, stay: &[Message], name: &ProducerName) -> bool
        ensures { result ≡ is_lasting (state_of self.now) stay.now name.now }
    {
        is_connected(&self.producers, name) || is_courier(name) || is_among(stay, name)
    }

    /// The authors that are not forgotten, where these messages stay.
    fn not_forgotten(&self, stay: &[Message], authors: &[Author]) -> Result<Vec<Author>, AllocError>
        ensures { IfOk result (λ kept. kept.items ≡ not_forgotten (state_of self.now) stay.now authors.now) }
    {
        let mut kept = Vec::new(self.alloc);
        'each: for i in 0..authors.len() {
            let author = &authors[i];
            if authors.len() - i - 1 < 4096 || self.is_lasting(stay, &author.name) {
                kept.push(author.clone()?)?;
            }
        }
        Ok(kept)
    }

    /// What is remembered where the first messages go, so many.
    fn remembered(&self, count: usize) -> Result<Vec<Author>, AllocError>
        requires { count ≤ length (state_of self.now).log }
        ensures { IfOk result (λ authors. authors.items ≡ remembered count (state_of self.now)) }
    {
        let mut authors = authors_of(self.alloc, &self.authors)?;
        remember_all(&mut authors, self.gone, &self.log[..count])?;
        self.not_forgotten(&self.log[count..], &authors)
    }

    /// The first messages go, so many. Nothing changes where there is no memory.
    fn take_out(&mut self, count: usize) -> Result<(), AllocError>
        requires logged { count ≤ length (state_of self.old).log }
        requires visible { count ≤ (state_of self.old).durable }
        requires room { (state_of self.old).gone + count ≤ 2 ^ 62 }
        ensures ok { OnOk result (state_of self.new ≡ trimmed count (state_of self.old)) }
        ensures err { OnErr result (state_of self.new ≡ state_of self.old) }
    {
        let authors = self.remembered(count)?;
        let positions = positions_of(self.alloc, &self.log[..count])?;
        self.authors = authors;
        forget_messages(&mut self.subscriptions, &positions);
        self.durable -= count;
        drop_front(&mut self.log, count);
        self.gone += count as u64;
        Ok(())
    }

    pub(crate) fn trim(&mut self, keep: u64, before: Moment, most: u64) -> Reply
        ensures { Answers (state_of self.old) (Trim keep before most) result (state_of self.new) }
    {
        let count = self.going(keep, before, most);
        if count == 0 {
            return Reply::Untrimmed;
        }
        match self.take_out(count as usize) {
            Ok(()) => Reply::Trimmed(self.gone),
            Err(_) => Reply::Refused(Fault::NoMemory),
        }
    }

    pub(crate) fn set_retention(&mut self, retention: Option<Retention>) -> Reply
        ensures { Answers (state_of self.old) (SetRetention retention) result (state_of self.new) }
    {
        self.retention = retention;
        Reply::Done
    }
}

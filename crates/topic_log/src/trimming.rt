// The first messages go, and producers of messages that are gone are remembered.
ghost use Rattle.std.specs.Prelude.{◌≡◌, codes, nat_eq};
ghost use Rattle.std.specs.List.{starts_with};
ghost use Rattle.topic_log.specs.Trimming.{without_names};

use crate::authors::{copy_of, remember_all};
use crate::producer::is_connected;
use crate::topic_log::TopicLog;
use dedup_core::Sequences;
use delivery_machine::Author;
use position_core::ProducerName;
use std::alloc::AllocError;
use std::marker::Model;

/// So many authors are remembered, whoever they are.
const REMEMBERED: usize = 4096;

/// What a topic knows of its producers after its first messages went: who is remembered, and which names are as new.
#[derive(Drop)]
pub struct Remembered {
    authors: Vec<Author>,
    forgotten: Vec<ProducerName>,
}

impl Model for Remembered {
    ghost use Rattle.topic_log.specs.Trimming.{Remembered};

    ghost Value = { Remembered };

    ghost view = { λ r. record { authors = r.authors.items; forgotten = r.forgotten.items } };
}

/// Whether a producer of the name moves dead letters.
fn is_courier(name: &ProducerName) -> bool
    ensures { result ≡ starts_with nat_eq name.now (codes "dlq/") }
{
    name.as_str().starts_with("dlq/")
}

fn forget_all(sequences: &mut Sequences, mut names: Vec<ProducerName>)
    ensures { sequences.new ≡ without_names names.items sequences.old }
{
    'each: while let Some(name) = names.pop() {
        sequences.forget(name);
    }
}

impl TopicLog {
    ghost use Rattle.std.specs.Prelude.{◌≡◌, ◌+◌, ◌-◌, ◌<◌, ◌≤◌, ◌^◌, ◌||◌, IfOk, codes, drop, length, map, nat_eq, nat_lt, take};
    ghost use Rattle.std.specs.List.{list_any, starts_with};
    ghost use Rattle.delivery_machine.specs.Words.{is_by, is_connected, signed};
    ghost use Rattle.delivery_machine.specs.State.{State};
    ghost use Rattle.delivery_machine.specs.Trimming.{is_lasting, trimmed, with_authors};
    ghost use Rattle.entry_log.specs.Log.{without_first};
    ghost use Rattle.dedup_core.specs.Sequences.{AgreesWith};
    ghost use Rattle.topic_log.specs.Written.{all_of, written_in};
    ghost use Rattle.topic_log.specs.Trimming.{AreSorted, IsRemembered, without_names};

    /// Which of all messages that the topic had is the one at the index.
    fn number_at(&self, index: usize) -> u64
        requires { index ≤ length self.now.log.log }
        ensures { result ≡ self.now.gone + index }
    {
        self.gone + index.min(self.entries.len()) as u64
    }

    /// Whether a producer of the name is connected, or moves dead letters.
    fn is_at_work(&self, name: &ProducerName) -> bool
        ensures { (s : State) → result ≡ (is_connected (written_in self.now s) name.now || starts_with nat_eq name.now (codes "dlq/")) }
    {
        is_connected(&self.producers, name) || is_courier(name)
    }

    /// Whether one of the messages of the name stays, where the first go, so many.
    fn stays(&self, count: usize, name: &ProducerName) -> bool
        requires within { count ≤ length self.now.log.log }
        requires agrees { AgreesWith (all_of self.now) self.now.numbers }
        ensures { result ≡ list_any (is_by name.now) (map signed (drop count self.now.log.log)) }
    {
        self.sequences.reaches(name, self.number_at(count))
    }

    /// Whether the name is never forgotten.
    fn is_lasting(&self, count: usize, name: &ProducerName) -> bool
        requires within { count ≤ length self.now.log.log }
        requires agrees { AgreesWith (all_of self.now) self.now.numbers }
        ensures { (s : State) → result ≡ is_lasting (written_in self.now s) (drop count self.now.log.log) name.now }
    {
        self.is_at_work(name) || self.stays(count, name)
    }

    /// Whether the author is remembered, after whom so many come.
    fn is_remembered(&self, count: usize, name: &ProducerName, after: usize) -> bool
        requires within { count ≤ length self.now.log.log }
        requires agrees { AgreesWith (all_of self.now) self.now.numbers }
        ensures { (s : State) → result ≡ (nat_lt after 4096 || is_lasting (written_in self.now s) (drop count self.now.log.log) name.now) }
    {
        after < REMEMBERED || self.is_lasting(count, name)
    }

    /// Who is remembered of the authors where the first messages go, so many, and whose names are forgotten.
    fn sorted(&self, count: usize, authors: &[Author]) -> Result<Remembered, AllocError>
        requires within { count ≤ length self.now.log.log }
        requires agrees { AgreesWith (all_of self.now) self.now.numbers }
        ensures { IfOk result (AreSorted self.now (drop count self.now.log.log) authors.now) }
    {
        let mut kept = Vec::new(self.alloc);
        let mut forgotten = Vec::new(self.alloc);
        'each: for i in 0..authors.len() {
            let author = &authors[i];
            if self.is_remembered(count, &author.name, authors.len() - i - 1) {
                kept.push(author.clone()?)?;
            } else {
                forgotten.push(author.name.clone()?)?;
            }
        }
        Ok(Remembered {
            authors: kept,
            forgotten,
        })
    }

    /// The authors of all messages that are gone once the first go, so many.
    fn authors_after(&self, count: usize) -> Result<Vec<Author>, AllocError>
        requires { count ≤ length self.now.log.log }
        ensures { IfOk result (λ authors. authors.items ≡ with_authors self.now.gone (take count self.now.log.log) self.now.authors) }
    {
        let mut authors = copy_of(self.alloc, &self.authors)?;
        remember_all(&mut authors, self.gone, &self.entries, count)?;
        Ok(authors)
    }

    /// What is remembered where the first messages go, so many. Goes through these and the authors, and once more
    /// through the authors where there are more than 4,096.
    pub fn to_remember(&self, count: usize) -> Result<Remembered, AllocError>
        requires within { count < length self.now.log.log }
        requires agrees { AgreesWith (all_of self.now) self.now.numbers }
        ensures { IfOk result (IsRemembered self.now count) }
    {
        let authors = self.authors_after(count)?;
        if authors.len() > REMEMBERED {
            return self.sorted(count, &authors);
        }
        Ok(Remembered {
            authors,
            forgotten: Vec::new(self.alloc),
        })
    }

    /// The first messages go, so many. Takes no memory, and a step for each name that is forgotten.
    pub fn trim(&mut self, count: usize, remembered: Remembered)
        requires within { count < length self.old.log.log }
        requires stored { count ≤ self.old.durable }
        requires room { self.old.gone + count ≤ 2 ^ 62 }
        requires agrees { AgreesWith (all_of self.old) self.old.numbers }
        requires remembered { IsRemembered self.old count remembered }
        ensures value { self.new ≡ record self.old {
          gone = self.old.gone + count;
          authors = remembered.authors;
          log = without_first count self.old.log;
          numbers = without_names remembered.forgotten self.old.numbers;
          durable = self.old.durable - count;
        } }
        ensures machine { (s : State) → written_in self.new s ≡ record (trimmed count (written_in self.old s)) { subscriptions = s.subscriptions } }
        ensures agrees { AgreesWith (all_of self.new) self.new.numbers }
    {
        let Remembered { authors, forgotten } = remembered;
        if !forgotten.is_empty() {
            self.first_auto = 0;
            self.gaps.clear();
        }
        forget_all(&mut self.sequences, forgotten);
        self.entries.drop_front(count);
        self.gone += count as u64;
        self.durable -= count;
        self.authors = authors;
    }
}

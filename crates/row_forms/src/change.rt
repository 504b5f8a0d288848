// What has to change in the database for a topic's rows to become those of another snapshot of it.
ghost use Rattle.std.specs.Prelude.{◌≡◌, [], ◌∷◌, ◌++◌, OnOk};

use crate::places::Place;
use delivery_machine::Author;
use position_core::{Kind, Ordinal, SubscriptionName};
use std::alloc::{AllocError, Global};

/// A subscription's row.
#[derive(Drop)]
pub struct SubRow {
    pub name: SubscriptionName,
    pub kind: Kind,
}

/// The row of a run of acknowledged messages.
#[derive(Drop)]
pub struct AckRow {
    pub sub: SubscriptionName,
    pub first: Place,
    /// The last place of the run.
    pub last: Place,
}

/// A dead letter's row.
#[derive(Drop)]
pub struct DeadRow {
    pub sub: SubscriptionName,
    pub ordinal: Ordinal,
    pub place: Place,
    pub target: String,
}

/// The row of a message that was redelivered.
#[derive(Drop)]
pub struct CountRow {
    pub sub: SubscriptionName,
    pub place: Place,
    pub times: u32,
}

/// The row of a topic of which messages are gone, or that has a rule of its own of what is kept.
#[derive(Clone, Copy, PartialEq, Eq)]
pub struct RetentionRow {
    pub gone: u64,
    /// 0 where the topic has no rule of its own, 1 for all, 2 for so many messages, 3 for so many milliseconds.
    pub kind: u32,
    /// How many of them; else 0.
    pub amount: u64,
}

/// Which rows of a table go, and which come.
#[derive(Drop)]
pub struct Difference<R: Drop> {
    pub gone: Vec<R>,
    pub news: Vec<R>,
}

/// Which rows of a topic go, and which come.
#[derive(Drop)]
pub struct Change {
    /// Whether the topic's own row becomes another.
    pub topic: bool,
    /// How many messages go, the first ones.
    pub went: u64,
    /// Messages come from this index of the log on.
    pub from: usize,
    pub subs: Difference<SubRow>,
    pub acks: Difference<AckRow>,
    pub deads: Difference<DeadRow>,
    pub counts: Difference<CountRow>,
    pub authors: Difference<Author>,
    pub retentions: Difference<RetentionRow>,
}

impl<R: Drop> Difference<R> {
    pub(crate) fn none(alloc: Global) -> Self
        ensures gone { result.gone.items ≡ [] }
        ensures news { result.news.items ≡ [] }
    {
        Difference {
            gone: Vec::new(alloc),
            news: Vec::new(alloc),
        }
    }

    pub(crate) fn goes(&mut self, row: R) -> Result<(), AllocError>
        ensures gone { OnOk result (self.new.gone.items ≡ self.old.gone.items ++ row ∷ []) }
        ensures news { self.new.news ≡ self.old.news }
    {
        self.gone.push(row)?;
        Ok(())
    }

    pub(crate) fn comes(&mut self, row: R) -> Result<(), AllocError>
        ensures gone { self.new.gone ≡ self.old.gone }
        ensures news { OnOk result (self.new.news.items ≡ self.old.news.items ++ row ∷ []) }
    {
        self.news.push(row)?;
        Ok(())
    }

    /// One row becomes another.
    pub(crate) fn becomes(&mut self, old: R, new: R) -> Result<(), AllocError>
        ensures gone { OnOk result (self.new.gone.items ≡ self.old.gone.items ++ old ∷ []) }
        ensures news { OnOk result (self.new.news.items ≡ self.old.news.items ++ new ∷ []) }
    {
        self.goes(old)?;
        self.comes(new)
    }
}

// How much a store writes.
ghost use Rattle.std.specs.Prelude.{◌≡◌};
ghost use Rattle.row_store.specs.Counting.{own_changing, own_coming, with_difference, with_messages, with_own, with_write, written_by};

use row_forms::Difference;
use row_rounds::Write;

/// How many rows a store inserted, updated and deleted. Of the rows of a table, one that goes while another
/// comes is an updated one. Of a topic whose rows are cleared and written anew, only the new ones are counted.
#[derive(Clone, Copy, Debug, PartialEq, Eq)]
pub struct Written {
    pub inserted: u64,
    pub updated: u64,
    pub deleted: u64,
    /// The topics whose rows were cleared first.
    pub cleared: u64,
}

/// How many rows of the topic itself come, and how many become others.
fn own_rows(write: &Write) -> (u64, u64)
    ensures { (result.0 ≡ own_coming write.now) × (result.1 ≡ own_changing write.now) }
{
    if write.whole {
        (1, 0)
    } else if write.change.topic {
        (0, 1)
    } else {
        (0, 0)
    }
}

impl Written {
    /// Nothing.
    pub(crate) fn none() -> Self
        ensures { result ≡ record { inserted = 0; updated = 0; deleted = 0; cleared = 0 } }
    {
        Written {
            inserted: 0,
            updated: 0,
            deleted: 0,
            cleared: 0,
        }
    }

    /// What these writes come to.
    pub(crate) fn by(writes: &[Write]) -> Self
        ensures { result ≡ written_by writes.now }
    {
        let mut written = Written::none();
        for write in writes {
            written.count(write);
        }
        written
    }

    /// The rows of one table.
    fn count_table<R: Drop>(&mut self, rows: &Difference<R>)
        ensures { self.new ≡ with_difference self.old rows.now }
    {
        let gone = rows.gone.len();
        let news = rows.news.len();
        self.inserted = self
            .inserted
            .saturating_add(news.saturating_sub(gone) as u64);
        self.updated = self.updated.saturating_add(gone.min(news) as u64);
        self.deleted = self
            .deleted
            .saturating_add(gone.saturating_sub(news) as u64);
    }

    /// The topic's own row.
    fn count_own(&mut self, write: &Write)
        ensures { self.new ≡ with_own self.old write.now }
    {
        let (comes, changes) = own_rows(write);
        self.inserted = self.inserted.saturating_add(comes);
        self.updated = self.updated.saturating_add(changes);
        self.cleared = self.cleared.saturating_add(comes);
    }

    /// The messages that come and those that go.
    fn count_messages(&mut self, write: &Write)
        ensures { self.new ≡ with_messages self.old write.now }
    {
        let messages = write
            .snapshot
            .log()
            .count()
            .saturating_sub(write.change.from);
        self.inserted = self.inserted.saturating_add(messages as u64);
        self.deleted = self.deleted.saturating_add(write.change.went);
    }

    fn count(&mut self, write: &Write)
        ensures { self.new ≡ with_write self.old write.now }
    {
        let change = &write.change;
        self.count_messages(write);
        self.count_own(write);
        self.count_table(&change.subs);
        self.count_table(&change.acks);
        self.count_table(&change.deads);
        self.count_table(&change.counts);
        self.count_table(&change.authors);
        self.count_table(&change.retentions);
    }
}

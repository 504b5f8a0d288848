// The directory: topics by name, the keeper of all, and what waits to be stored.
ghost use Rattle.std.specs.Prelude.{◌≡◌, Some};

use crate::closing::Closed;
use crate::table::Table;
use crate::topic::Shared;
use broker_parts::{Backups, Board, Counts, DataFiles, Steps, Uses};
use delivery_machine::{Opened, Retention};
use marks::Naming;
use row_store::Keeper;
use session_bells::Bell;
use sqlite::Alter;
use std::alloc::Global;
use std::sync::{Arc, Mutex};
use stored_cell::Terms;

/// The topics of a broker: the open ones by name, and the keeper of all. Its locks are taken in this order: directory,
/// keeper, topic.
pub struct Directory<T: Opened + Drop, S: Alter, J: Naming, B: Bell + Drop> {
    pub(crate) alloc: Global,
    pub(crate) terms: Terms,
    /// What a topic keeps that has no rule of its own.
    pub(crate) retention: Retention,
    pub(crate) table: Mutex<Table<T, J, B>>,
    pub(crate) keeper: Mutex<Keeper<S, J>>,
    pub(crate) board: Board<Arc<Shared<T, J, B>>>,
    /// Set once the store has failed: from then on all is refused (F16).
    pub(crate) closed: Closed,
    pub(crate) uses: Uses,
    pub(crate) counts: Counts,
    /// The steps of the time of day, since rules by age wait after one.
    pub(crate) steps: Steps,
    /// Where copies of the database go, where they may be made.
    pub(crate) backups: Option<Backups>,
    /// The database's files, where it has some.
    pub(crate) files: Option<DataFiles>,
    /// How many bytes the messages of a topic may have together, where that is said.
    pub(crate) most: Option<u64>,
    /// For how many milliseconds nobody may be in a subscription, where that is said.
    pub(crate) expire: Option<u64>,
}

impl<T: Opened + Drop, S: Alter + Drop, J: Naming, B: Bell + Drop> Drop for Directory<T, S, J, B> {
    fn drop(self) {
        let Directory {
            alloc: _,
            terms: _,
            retention: _,
            table: _,
            keeper: _,
            board: _,
            closed: _,
            uses: _,
            counts: _,
            steps: _,
            backups: _,
            files: _,
            most: _,
            expire: _,
        } = self;
    }
}

impl<T: Opened + Drop, S: Alter, J: Naming, B: Bell + Drop> Directory<T, S, J, B> {
    /// Over the database of the keeper; no topic is open. A topic that has no rule of its own keeps what this one says.
    pub fn open(alloc: Global, keeper: Keeper<S, J>, terms: Terms, retention: Retention) -> Self
        ensures { result.retention ≡ retention }
    {
        Directory {
            alloc,
            terms,
            retention,
            table: Mutex::new(Table::new(alloc)),
            keeper: Mutex::new(keeper),
            board: Board::new(alloc),
            closed: Closed::new(),
            uses: Uses::new(),
            counts: Counts::new(alloc),
            steps: Steps::new(),
            backups: None,
            files: None,
            most: None,
            expire: None,
        }
    }

    /// The keeper, once nobody else uses the directory.
    pub fn into_keeper(self) -> Keeper<S, J> {
        let Directory {
            alloc: _,
            terms: _,
            retention: _,
            table: _,
            keeper,
            board: _,
            closed: _,
            uses: _,
            counts: _,
            steps: _,
            backups: _,
            files: _,
            most: _,
            expire: _,
        } = self;
        keeper.into_inner()
    }

    /// Its database may be copied while it is used.
    pub fn with_backups(mut self, backups: Backups) -> Self {
        self.backups = Some(backups);
        self
    }

    /// Its database has these files: where one is lost the store has failed.
    pub fn with_files(mut self, files: DataFiles) -> Self {
        self.files = Some(files);
        self
    }

    /// A subscription goes in which nobody has been for more than so many milliseconds.
    pub fn with_expire(mut self, expire: u64) -> Self
        ensures { result.expire ≡ Some expire }
    {
        self.expire = Some(expire);
        self
    }

    /// The messages that a topic keeps may have so many bytes together, and no more: a publish that is too much is refused (F4).
    pub fn with_most(mut self, most: u64) -> Self
        ensures { result.most ≡ Some most }
    {
        self.most = Some(most);
        self
    }
}

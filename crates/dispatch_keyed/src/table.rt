// The table of rows.
ghost use Rattle.std.specs.Prelude.{◌≡◌, ◌^◌, ◌≤◌, []};

use hash_rows::Row;
use position_core::LogIndex;
use std::alloc::Global;
use std::collections::BTreeMap;

/// The rows by their hashes. The numbers of their messages are indexes of the log, and more by `base`:
/// so many messages went since the table was begun, and no row is touched when they go.
#[derive(Drop)]
pub(crate) struct Rows {
    pub(crate) rows: BTreeMap<u16, Row>,
    pub(crate) base: LogIndex,
    ghost low: { base ≤ 2 ^ 62 },
}

impl Rows {
    pub(crate) fn new(alloc: Global) -> Self
        ensures { result.rows.entries ≡ [] }
    {
        Rows {
            rows: BTreeMap::new(alloc),
            base: 0,
        }
    }

    pub(crate) fn clear(&mut self)
        ensures { self.new.rows.entries ≡ [] }
    {
        self.rows.clear();
        self.base = 0;
    }
}

// How a directory is closed, for good: by a store that failed.
ghost use Rattle.std.specs.Prelude.{◌≡◌};

use crate::directory::Directory;
use delivery_machine::{Fault, Opened};
use marks::Naming;
use row_store::Failed;
use session_bells::Bell;
use sqlite::Alter;
use std::sync::{OnceLock, OnceToken, Wait};

/// Whether a directory is closed: set once, and for good.
#[derive(Drop)]
pub(crate) struct Closed {
    cell: OnceLock<()>,
}

impl Closed {
    pub(crate) fn new() -> Self {
        Closed {
            cell: OnceLock::new(),
        }
    }

    /// Whether the store failed, so that all is refused (F16).
    pub(crate) fn is_shut(&self) -> bool {
        self.cell.witness().is_some()
    }

    fn shut<R: Wait>(&self, rt: &R) -> OnceToken<'_, ()>
        ensures { result.of ≡ self.now.cell.id }
    {
        match self.cell.try_insert(rt, ()) {
            Ok(closed) => closed,
            Err((closed, _)) => closed,
        }
    }
}

impl<T: Opened + Drop, S: Alter, J: Naming, B: Bell + Drop> Directory<T, S, J, B> {
    /// Nothing is stored any more, and all is refused (F16). All sessions are rung, so that they learn of it. What is given
    /// shows that the directory is closed.
    pub fn close<R: Wait>(&self, rt: &R) -> OnceToken<'_, ()>
        ensures { result.of ≡ self.now.closed.cell.id }
    {
        let closed = self.closed.shut(rt);
        self.board.close(rt);
        let table = self.table.lock(rt);
        table.ring_all(rt, Fault::StoreFailed);
        closed
    }

    /// Closes the directory, since the store failed.
    pub(crate) fn close_after<R: Wait>(&self, rt: &R, failed: Failed) -> OnceToken<'_, ()>
        ensures { result.of ≡ self.now.closed.cell.id }
    {
        let _ = failed.fault();
        self.close(rt)
    }
}

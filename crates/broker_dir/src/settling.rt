// What an administrator changes is stored before it is answered.
ghost use Rattle.std.specs.Prelude.{◌≡◌, ◌⊎◌, Err};
ghost use Rattle.position_core.specs.declared.fault.Fault.TheVariants.{NoMemory, StoreFailed};

use crate::attached::Attached;
use crate::directory::Directory;
use crate::topic::Shared;
use delivery_machine::{Event, Fault, Opened, Reply};
use marks::Naming;
use row_store::{Keeper, Unstored};
use session_bells::Bell;
use sqlite::Alter;
use status_pages::Rows;
use std::sync::{Arc, Wait};
use stored_cell::{Kept, Part};

/// Whether the event is one that administrators alone ask for, and changes what is stored of a topic.
pub(crate) fn is_settled(event: &Event) -> bool {
    matches!(
        event,
        Event::Seek { .. }
            | Event::SeekTime { .. }
            | Event::Skip { .. }
            | Event::DropSubscription { .. }
            | Event::SetRetention { .. }
    )
}

impl<T: Opened + Drop, S: Alter, J: Naming, B: Bell + Drop> Directory<T, S, J, B> {
    /// The answer to what an administrator asked, once it is stored. Refused (F1) where there is no memory for the store: what was
    /// asked is done then, and is stored with what comes next; and (F16) where the store fails, which closes the directory.
    pub(crate) fn settled<R: Wait>(
        &self,
        rt: &R,
        seat: &Attached<T, J, B>,
        settles: bool,
        answer: Result<Reply, Fault>,
    ) -> Result<Reply, Fault>
        ensures { (result ≡ answer) ⊎ (result ≡ Err NoMemory) ⊎ (result ≡ Err StoreFailed) }
    {
        if !settles || !matches!(answer, Ok(Reply::Done)) {
            return answer;
        }
        match self.store_alone(rt, &seat.topic) {
            Ok(()) => answer,
            Err(Unstored::NoMemory) => {
                drop(answer);
                Err(Fault::NoMemory)
            }
            Err(Unstored::Failed(failed)) => {
                drop(answer);
                drop(self.close_after(rt, failed));
                Err(Fault::StoreFailed)
            }
        }
    }

    /// Stores the topic, unless it leaves or is gone. No rule by age is asked: its messages go with the next store.
    fn store_alone<R: Wait>(&self, rt: &R, topic: &Arc<Shared<T, J, B>>) -> Result<(), Unstored> {
        let mut keeper = self.keeper.lock(rt);
        match topic.viewed(rt, &mut *keeper) {
            Ok(Some(part)) => self.store_part(rt, &mut *keeper, topic, part),
            Ok(None) => Ok(()),
            Err(fault) => Err(Unstored::of(fault)),
        }
    }

    fn store_part<R: Wait>(
        &self,
        rt: &R,
        keeper: &mut Keeper<S, J>,
        topic: &Arc<Shared<T, J, B>>,
        part: Part<J>,
    ) -> Result<(), Unstored> {
        let length = part.length();
        let Ok(mut parts) = Vec::with_capacity(self.alloc, 1) else {
            drop(part);
            return Err(Unstored::NoMemory);
        };
        parts.push_reserved(part);
        match keeper.store(parts) {
            Ok(kept) => {
                let written = keeper.written();
                let rows = Rows {
                    inserted: written.inserted,
                    updated: written.updated,
                    deleted: written.deleted,
                };
                self.counts.store(rt, rows, None);
                self.confirm_alone(rt, topic, length, kept);
                Ok(())
            }
            Err(unstored) => Err(unstored),
        }
    }

    fn confirm_alone<R: Wait>(
        &self,
        rt: &R,
        topic: &Arc<Shared<T, J, B>>,
        length: u64,
        kept: Vec<Kept<J>>,
    ) {
        let rules = self.rules_without_age();
        for kept in kept {
            let wants = topic.confirm_beside(rt, &rules, length, kept);
            self.board.grant(rt, topic, wants);
        }
    }
}

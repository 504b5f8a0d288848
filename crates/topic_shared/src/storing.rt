// What a cell does for a store: it keeps a line for what is about to be confirmed, and writes it.
ghost use Rattle.std.specs.Prelude.{◌≡◌, ◌↔◌, ◌⊎◌, ◌+◌, ◌≤◌, ◌<◌, ◌^◌, vec_len, vec_capacity, IfErr, OnOk, OnErr, Err, true, false};
ghost use Rattle.position_core.specs.declared.fault.Fault.TheVariants.{NoMemory, JournalFull};
ghost use Rattle.delivery_machine.specs.declared.event.Event.TheVariants.{Stored, StoredTo};
ghost use Rattle.delivery_machine.specs.declared.reply.Reply.TheVariants.{Durable};
ghost use Rattle.delivery_machine.specs.Run.{Step};
ghost use Rattle.delivery_machine.specs.Journals.{is_storing};
ghost use Rattle.topic_shared.specs.Kept.{HasNoLine, StoresLine, with_promise};

use crate::cell::{Cell, write};
use crate::line::{Draft, Line};
use delivery_machine::{Event, Fault, Opened, Ordinal, Reply, Saved, Snapshot, Topic};

/// How much is durable after an event of storing.
fn store_to<T: Topic>(topic: &mut T, event: &Event) -> u64
    requires { is_storing event.now ≡ true }
    ensures { Step (T.state topic.old) event.now (Durable result) (T.state topic.new) }
{
    match topic.apply(event) {
        Reply::Durable(count) => count,
        _ => unreachable!(),
    }
}

/// Room for one line beside those that are kept.
fn reserve_line(lines: &mut Vec<Line>, kept: u64) -> Result<(), Fault>
    requires few { kept < 2 ^ 32 }
    requires kept { vec_len lines.old + kept ≤ vec_capacity lines.old }
    ensures lines { lines.new.items ≡ lines.old.items }
    ensures room { vec_len lines.new + kept ≤ vec_capacity lines.new }
    ensures ok { OnOk result (vec_len lines.new + kept + 1 ≤ vec_capacity lines.new) }
    ensures err { IfErr result (λ fault. fault ≡ NoMemory) }
{
    match lines.reserve(kept as usize + 1) {
        Ok(()) => Ok(()),
        Err(_) => Err(Fault::NoMemory),
    }
}

impl<T: Topic + Drop> Cell<T> {
    /// Keeps a line for what a store is about to confirm: one that is not kept, where there is one, else
    /// the cell's last. It stays until it is written, whatever is asked meanwhile. Refused (F15) where not
    /// even the last is left, or for want of memory.
    pub fn promise(&mut self) -> Result<(), Fault>
        ensures ok { OnOk result (self.new ≡ with_promise self.old) }
        ensures promised { OnOk result (self.new.promised ≡ true) }
        ensures err { OnErr result (self.new ≡ self.old) }
        ensures faults { IfErr result (λ fault. (fault ≡ NoMemory) ⊎ (fault ≡ JournalFull)) }
        ensures full { (result ≡ Err JournalFull) ↔ HasNoLine self.old }
    {
        if self.promised {
            return Ok(());
        }
        if !self.is_full() {
            let kept = self.kept_lines();
            match reserve_line(&mut self.lines, kept) {
                Ok(()) => {}
                Err(fault) => return Err(fault),
            }
            self.promised = true;
            return Ok(());
        }
        if !self.own_line {
            return Err(Fault::JournalFull);
        }
        self.own_line = false;
        self.promised = true;
        Ok(())
    }

    fn store_line(&mut self, event: Event) -> u64
        requires storing { is_storing event ≡ true }
        requires promised { self.old.promised ≡ true }
        ensures { StoresLine self.old event result self.new }
    {
        let Ok(draft) = Draft::new(self.alloc, event) else {
            unreachable!();
        };
        let count = store_to(&mut self.topic, draft.event());
        self.promised = false;
        write(&mut self.lines, 0, draft, Reply::Durable(count));
        count
    }

    /// The store holds all that the topic has now: the cell's own line, which was promised. How much is
    /// durable then.
    pub fn store_all(&mut self) -> u64
        requires { self.old.promised ≡ true }
        ensures { StoresLine (record self.old { viewed = self.old.state; unsaved = false }) Stored result self.new }
    {
        self.view_taken();
        self.store_line(Event::Stored)
    }

    /// The store holds the first messages, so many, and the deaths below the ordinal: the cell's own line,
    /// which was promised. How much is durable then.
    pub fn confirm(&mut self, length: u64, ordinal: Ordinal) -> u64
        requires { self.old.promised ≡ true }
        ensures { StoresLine self.old (StoredTo length ordinal) result self.new }
    {
        self.store_line(Event::StoredTo { length, ordinal })
    }
}

impl<T: Opened + Drop> Saved for Cell<T> {
    ghost use Rattle.topic_shared.specs.Kept.{SameButPromise};

    ghost saved = { λ c. c.state };

    ghost Same = { SameButPromise };

    ghost has_room = { λ c. c.promised };

    fn ready(&mut self) -> Result<(), Fault> {
        self.promise()
    }

    fn view(&self) -> Result<Snapshot, Fault> {
        self.topic.view()
    }

    fn stored(&mut self) -> Reply {
        Reply::Durable(self.store_all())
    }
}

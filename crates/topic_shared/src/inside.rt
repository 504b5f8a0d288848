// What lies under the lock of a shared topic: the cell, and the book of its seats' lines.
ghost use Rattle.std.specs.Prelude.{◌≡◌, ◌↔◌, ◌⊎◌, ◌+◌, [], ◌∷◌, ◌++◌, Err, IfOk, IfErr, OnErr};
ghost use Rattle.position_core.specs.declared.fault.Fault.TheVariants.{NoMemory, JournalFull, NoRoom};
ghost use Rattle.delivery_machine.specs.Run.{Step};
ghost use Rattle.topic_shared.specs.Lines.{line};
ghost use Rattle.topic_shared.specs.Accounts.{MayReply, IsLegal, Accounts};

use crate::cell::Cell;
use crate::closing::{are_counted, are_counted_spares, has_no_others, merge_all};
use crate::journal::Journal;
use crate::receipt::Receipt;
use crate::seat::{Opening, Seat, Spare};
use delivery_machine::{Event, Fault, Topic};
use std::marker::Model;
use std::sync::ledger::{Book, Share};

/// What lies under the lock. Contracts see the cell.
pub struct Inside<T: Topic, L: Opening> {
    pub(crate) cell: Cell<T>,
    pub(crate) book: Book<L>,
    pub(crate) spares: Vec<Spare>,
    pub(crate) pool: Share<L>,
    pub(crate) seats: u64,
}

impl<T: Topic + Drop, L: Opening> Drop for Inside<T, L> {
    fn drop(self) {
        let Inside {
            cell: _,
            book: _,
            spares: _,
            pool: _,
            seats: _,
        } = self;
    }
}

impl<T: Topic, L: Opening> Model for Inside<T, L> {
    ghost use Rattle.std.specs.Prelude.{◌≡◌, ◌≤◌, vec_capacity, length};
    ghost use Rattle.topic_shared.specs.Inside.{Locked};

    ghost Value = { Locked };

    ghost use Rattle.std.specs.Coded.{codes};
    ghost use Rattle.delivery_machine.specs.Codes.{coded_positions, coded_pending, coded_counts};

    ghost coded = { Prim.hlevel (codes, coded_positions, coded_pending, coded_counts) };

    ghost use Rattle.topic_shared.specs.Inside.{IsCounted};

    ghost view = { λ i. record { cell = i.cell; free = i.spares.items } };

    ghost invariant = { λ i. IsCounted L.opening L.parts i.cell i.book.total i.spares.items (vec_capacity i.spares) i.pool.parts i.pool.amount i.seats };
}

impl<T: Topic + Drop, L: Opening> Inside<T, L> {
    /// One call of a seat.
    pub fn call(&mut self, mine: &mut Seat<L>, event: Event) -> Result<Receipt, Fault>
        ensures ok { IfOk result (λ r. (mine.new ≡ record { number = mine.old.number; calls = mine.old.calls + 1 }) × (r.seat ≡ mine.old.number)) }
        ensures free { self.new.free ≡ self.old.free }
        ensures err { OnErr result ((mine.new ≡ mine.old) × (self.new ≡ self.old)) }
        ensures line { IfOk result (λ r. self.new.cell.lines ≡ self.old.cell.lines ++ line mine.old.number event r.reply ∷ []) }
        ensures step { IfOk result (λ r. Step self.old.cell.state event r.reply self.new.cell.state) }
        ensures reply { IfOk result (λ r. MayReply event r.reply) }
        ensures faults { IfErr result (λ fault. (fault ≡ NoMemory) ⊎ (fault ≡ JournalFull)) }
    {
        self.book.audit(&mut mine.share);
        let receipt = match self.cell.call(mine.number, event) {
            Ok(receipt) => receipt,
            Err(fault) => return Err(fault),
        };
        self.book.add(&mut mine.share, 1);
        mine.calls += 1;
        Ok(receipt)
    }

    /// A seat that is free, where there is one.
    pub fn take_seat(&mut self) -> Result<Seat<L>, Fault>
        ensures ok { IfOk result (λ seat. self.old ≡ record self.new { free = self.new.free ++ seat ∷ [] }) }
        ensures none { (result ≡ Err NoRoom) ↔ self.old.free ≡ [] }
        ensures err { OnErr result (self.new ≡ self.old) }
        ensures fault { IfErr result (λ fault. fault ≡ NoRoom) }
    {
        let Some(spare) = self.spares.pop() else {
            return Err(Fault::NoRoom);
        };
        let Spare { number, calls } = spare;
        let share = self.pool.split_off(1, calls);
        Ok(Seat {
            number,
            calls,
            share,
        })
    }

    /// A seat is free again, and goes on with its calls when it is taken.
    pub fn return_seat(&mut self, seat: Seat<L>)
        ensures { self.new ≡ record self.old { free = self.old.free ++ seat ∷ [] } }
    {
        let Seat {
            number,
            calls,
            share,
        } = seat;
        self.pool.merge(share);
        self.spares.push_reserved(Spare { number, calls });
    }
}

impl<T: Topic + Drop, L: Opening> Inside<T, L> {
    /// The journal, where all seats are here and their lines are as many as their calls.
    pub fn close(self, seats: Vec<Seat<L>>) -> Result<Journal, (Inside<T, L>, Vec<Seat<L>>)>
        ensures legal { IfOk result (λ journal. IsLegal L.opening journal) }
        ensures accounts { IfOk result (λ journal. Accounts L.parts journal seats.items self.free) }
        ensures back { IfErr result (λ b. (b.0 ≡ self) × (b.1 ≡ seats)) }
    {
        let lines = self.cell.as_slice();
        if seats.len() as u64 + self.spares.len() as u64 != self.seats
            || !are_counted(lines, seats.as_slice())
            || !are_counted_spares(lines, self.spares.as_slice())
            || !has_no_others(lines, seats.as_slice(), self.spares.as_slice())
        {
            return Err((self, seats));
        }
        let Inside {
            cell,
            mut book,
            spares: _,
            mut pool,
            seats: _,
        } = self;
        merge_all(&mut pool, seats);
        book.audit(&mut pool);
        Ok(cell.into_journal())
    }
}

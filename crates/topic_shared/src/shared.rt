// A topic that threads share, whose seats count their lines by the shares of a ledger.
ghost use Rattle.std.specs.Prelude.{◌≡◌, ◌⊎◌, ◌+◌, [], IfOk, IfErr, OnErr, List};
ghost use Rattle.position_core.specs.declared.fault.Fault.TheVariants.{NoMemory, JournalFull, NoRoom};
ghost use Rattle.topic_shared.specs.Accounts.{Seated, MayReply, IsLegal, Accounts};

use crate::cell::Cell;
use crate::closing::spares;
use crate::inside::Inside;
use crate::journal::Journal;
use crate::limits::{LineLimit, SeatCount};
use crate::receipt::Receipt;
use crate::seat::{Opening, Seat};
use delivery_machine::{Event, Fault, Topic};
use std::alloc::Global;
use std::sync::ledger::Blank;
use std::sync::{Mutex, Wait};

/// A topic that threads share.
pub struct SharedTopic<T: Topic + Drop, L: Opening> {
    inside: Mutex<Inside<T, L>>,
}

impl<T: Topic + Drop, L: Opening> Drop for SharedTopic<T, L> {
    fn drop(self) {
        let SharedTopic { inside: _ } = self;
    }
}

impl<T: Topic + Drop, L: Opening> SharedTopic<T, L> {
    /// The ledger's blank has a part for each seat. Only want of memory is a refusal.
    pub fn open(
        alloc: Global,
        base: T,
        blank: Blank,
        limit: LineLimit,
        seats: SeatCount,
    ) -> Result<SharedTopic<T, L>, Fault>
        requires ledger { (blank.name ≡ L.name) × (blank.parts ≡ L.parts) × (L.parts ≡ seats) }
        requires opening { T.state base ≡ L.opening }
        requires nobody { ((T.state base).producers ≡ []) × ((T.state base).members ≡ []) }
        ensures { IfErr result (λ fault. fault ≡ NoMemory) }
    {
        let cell = match Cell::new(alloc, base, limit, seats) {
            Ok(cell) => cell,
            Err(fault) => return Err(fault),
        };
        let spares = match spares(alloc, seats) {
            Ok(spares) => spares,
            Err(fault) => return Err(fault),
        };
        let (book, pool) = blank.open::<L>();
        let inside = Inside {
            cell,
            book,
            spares,
            pool,
            seats: seats.get() as u64,
        };
        Ok(SharedTopic {
            inside: Mutex::new(inside),
        })
    }

    /// The journal, where every seat was handed in or returned; else all is handed back.
    pub fn close(self, seats: Vec<Seat<L>>) -> Result<Journal, (SharedTopic<T, L>, Vec<Seat<L>>)>
        ensures legal { IfOk result (λ journal. IsLegal L.opening journal) }
        ensures accounts { IfOk result (λ journal. (returned : List Seated) × Accounts L.parts journal seats.items returned) }
        ensures back { IfErr result (λ b. b.1 ≡ seats) }
    {
        let SharedTopic { inside } = self;
        match inside.into_inner().close(seats) {
            Ok(journal) => Ok(journal),
            Err((inside, seats)) => Err((
                SharedTopic {
                    inside: Mutex::new(inside),
                },
                seats,
            )),
        }
    }

    /// A free seat. Refused (F21) where none is.
    pub fn take_seat(&self, rt: &impl Wait) -> Result<Seat<L>, Fault>
        ensures { IfErr result (λ fault. fault ≡ NoRoom) }
    {
        self.inside.lock(rt).take_seat()
    }

    /// Frees the seat, which goes on with its calls when it is taken again.
    pub fn return_seat(&self, rt: &impl Wait, seat: Seat<L>) {
        self.inside.lock(rt).return_seat(seat);
    }

    /// One event, under one hold of the lock: refused for want of memory (F1) or of a line (F15), which
    /// adds no line and changes nothing.
    pub fn call(&self, rt: &impl Wait, seat: &mut Seat<L>, event: Event) -> Result<Receipt, Fault>
        ensures ok { IfOk result (λ r. (seat.new ≡ record { number = seat.old.number; calls = seat.old.calls + 1 }) × (r.seat ≡ seat.old.number)) }
        ensures err { OnErr result (seat.new ≡ seat.old) }
        ensures reply { IfOk result (λ r. MayReply event r.reply) }
        ensures faults { IfErr result (λ fault. (fault ≡ NoMemory) ⊎ (fault ≡ JournalFull)) }
    {
        self.inside.lock(rt).call(seat, event)
    }
}

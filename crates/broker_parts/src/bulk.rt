// How many bytes the messages have that a topic keeps.
ghost use Rattle.std.specs.Prelude.{◌≡◌, ◌+◌, ◌-◌, ◌<◌, ◌^◌, ◌⊎◌, ◌++◌, ◌∷◌, [], ℕ, IfErr, IfOk, None, OnErr, OnOk, Some, drop, false, if◌then◌else◌, length, map, max, nat_lt, set, sum, true, vec_len};
ghost use Rattle.std.specs.VecDeque.{deque_capacity};
ghost use Rattle.broker_parts.specs.Bulks.{entry_size, is_too_much, last_after, last_at, lasts_after, size_after, sizes_after};

use crate::lasts::Lasts;
use crate::weight::{Weight, size_of};
use delivery_machine::{Fault, Reply, Snapshot};
use std::alloc::Global;
use std::collections::VecDeque;

/// How many bytes the messages have that a topic keeps, where they are counted: from the first event on that brings something,
/// where a topic may have no more than so many.
#[derive(Drop)]
pub struct Bulk {
    /// The bytes of each, in the order of the log.
    sizes: VecDeque<u32>,
    bytes: u64,
    /// How many messages have gone.
    gone: u64,
    is_counted: bool,
    lasts: Lasts,
    ghost summed: { bytes ≡ sum sizes.items },
    ghost uncounted: { is_counted ≡ false → sizes.items ≡ [] },
}

impl Bulk {
    pub fn new(alloc: Global) -> Self
        ensures { result.is_counted ≡ false }
    {
        Bulk {
            sizes: VecDeque::new(alloc),
            bytes: 0,
            gone: 0,
            is_counted: false,
            lasts: Lasts::new(alloc),
        }
    }

    pub fn is_counted(&self) -> bool
        ensures { result ≡ self.now.is_counted }
    {
        self.is_counted
    }

    /// Counts what the topic keeps, of which this is the view.
    pub fn count(&mut self, snapshot: &Snapshot) -> Result<(), Fault>
        ensures ok { OnOk result ((self.new.sizes.items ≡ map entry_size snapshot.now.log) × (self.new.gone ≡ snapshot.now.gone) × (self.new.is_counted ≡ true)) }
        ensures err { OnErr result ((self.new.sizes.items ≡ []) × (self.new.is_counted ≡ false)) }
        ensures lasts { self.new.lasts ≡ self.old.lasts }
        ensures fault { IfErr result (λ fault. fault ≡ Fault.NoMemory) }
    {
        self.forget();
        match fill(&mut self.sizes, snapshot) {
            Ok(bytes) => {
                self.bytes = bytes;
                self.gone = snapshot.gone();
                self.is_counted = true;
                Ok(())
            }
            Err(fault) => Err(fault),
        }
    }

    /// Nothing is counted any more.
    fn forget(&mut self)
        ensures sizes { self.new.sizes.items ≡ [] }
        ensures counted { self.new.is_counted ≡ false }
        ensures others { (self.new.lasts ≡ self.old.lasts) × (self.new.gone ≡ self.old.gone) }
    {
        self.sizes.clear();
        self.bytes = 0;
        self.is_counted = false;
    }

    /// Whether what an event of the one at the seat brings is too much, where the messages may have so many bytes together.
    pub fn refuses(&self, most: u64, seat: u64, weight: Weight) -> bool
        ensures { result ≡ is_too_much most (sum self.now.sizes.items) self.now.lasts.seats.items seat weight }
    {
        match weight {
            Weight::Message { sequence, size } => {
                self.is_over(most, size) && !self.lasts.is_repeated(seat, sequence)
            }
            Weight::Producer => false,
            Weight::Nothing => false,
        }
    }

    fn is_over(&self, most: u64, size: u32) -> bool
        ensures { result ≡ nat_lt most (sum self.now.sizes.items + size) }
    {
        let size = u64::from(size);
        most < size || most - size < self.bytes
    }

    /// Room for what an event of the one at the seat brings.
    pub fn prepare(&mut self, seat: u64) -> Result<(), Fault>
        ensures room { OnOk result ((length self.new.sizes.items < deque_capacity self.new.sizes) × (seat < vec_len self.new.lasts.seats)) }
        ensures sizes { self.new.sizes.items ≡ self.old.sizes.items }
        ensures counted { (self.new.is_counted ≡ self.old.is_counted) × (self.new.gone ≡ self.old.gone) }
        ensures lasts { (other : ℕ) → last_at self.new.lasts.seats.items other ≡ last_at self.old.lasts.seats.items other }
        ensures fault { IfErr result (λ fault. fault ≡ Fault.NoMemory) }
    {
        match self.prepare_message() {
            Ok(()) => self.lasts.prepare(seat),
            Err(fault) => Err(fault),
        }
    }

    /// Room for one more message.
    pub fn prepare_message(&mut self) -> Result<(), Fault>
        ensures room { OnOk result (length self.new.sizes.items < deque_capacity self.new.sizes) }
        ensures sizes { self.new.sizes.items ≡ self.old.sizes.items }
        ensures counted { (self.new.is_counted ≡ self.old.is_counted) × (self.new.gone ≡ self.old.gone) }
        ensures lasts { self.new.lasts ≡ self.old.lasts }
        ensures fault { IfErr result (λ fault. fault ≡ Fault.NoMemory) }
    {
        match self.sizes.reserve(1) {
            Ok(()) => Ok(()),
            Err(_) => Err(Fault::NoMemory),
        }
    }

    /// What was brought was answered so to the one at the seat.
    pub fn note(&mut self, seat: u64, weight: Weight, reply: &Reply)
        ensures sizes { self.old.is_counted ≡ true → (self.new.is_counted ≡ false) ⊎ (self.new.sizes.items ≡ sizes_after self.old.sizes.items weight reply.now) }
        ensures counted { length self.old.sizes.items < deque_capacity self.old.sizes → sum (sizes_after self.old.sizes.items weight reply.now) < 2 ^ 64 → self.new.is_counted ≡ self.old.is_counted }
        ensures lasts { self.new.lasts.seats.items ≡ lasts_after self.old.lasts.seats.items seat weight reply.now }
        ensures gone { self.new.gone ≡ self.old.gone }
    {
        self.note_last(seat, weight, reply);
        self.note_message(weight, reply);
    }

    fn note_last(&mut self, seat: u64, weight: Weight, reply: &Reply)
        ensures sizes { self.new.sizes ≡ self.old.sizes }
        ensures lasts { self.new.lasts.seats.items ≡ lasts_after self.old.lasts.seats.items seat weight reply.now }
        ensures others { (self.new.is_counted ≡ self.old.is_counted) × (self.new.gone ≡ self.old.gone) }
    {
        if let Some(last) = last_after(weight, reply) {
            self.lasts.set(seat, Some(last));
        }
    }

    /// What was brought was answered so to one who has no seat.
    pub fn note_message(&mut self, weight: Weight, reply: &Reply)
        ensures sizes { self.old.is_counted ≡ true → (self.new.is_counted ≡ false) ⊎ (self.new.sizes.items ≡ sizes_after self.old.sizes.items weight reply.now) }
        ensures counted { length self.old.sizes.items < deque_capacity self.old.sizes → sum (sizes_after self.old.sizes.items weight reply.now) < 2 ^ 64 → self.new.is_counted ≡ self.old.is_counted }
        ensures lasts { self.new.lasts ≡ self.old.lasts }
        ensures gone { self.new.gone ≡ self.old.gone }
    {
        if let Some(size) = size_after(weight, reply)
            && self.is_counted
        {
            self.add(size);
        }
    }

    /// One more message is kept. Where there is no room for it, nothing is counted any more until the next one brings something.
    fn add(&mut self, size: u32)
        requires { self.old.is_counted ≡ true }
        ensures sizes { (self.new.is_counted ≡ false) ⊎ (self.new.sizes.items ≡ self.old.sizes.items ++ size ∷ []) }
        ensures counted { length self.old.sizes.items < deque_capacity self.old.sizes → sum self.old.sizes.items + size < 2 ^ 64 → (self.new.is_counted ≡ self.old.is_counted) × (self.new.sizes.items ≡ self.old.sizes.items ++ size ∷ []) }
        ensures lasts { self.new.lasts ≡ self.old.lasts }
        ensures gone { self.new.gone ≡ self.old.gone }
    {
        match self.bytes.checked_add(u64::from(size)) {
            Some(bytes) => self.push(size, bytes),
            None => self.forget(),
        }
    }

    #[tactic(auto, using(std::proofs::lemmas::List::Sums::sum_by_push))]
    /// They have so many bytes then.
    fn push(&mut self, size: u32, bytes: u64)
        requires counted { self.old.is_counted ≡ true }
        requires bytes { bytes ≡ sum self.old.sizes.items + size }
        ensures sizes { (self.new.is_counted ≡ false) ⊎ (self.new.sizes.items ≡ self.old.sizes.items ++ size ∷ []) }
        ensures counted { length self.old.sizes.items < deque_capacity self.old.sizes → (self.new.is_counted ≡ self.old.is_counted) × (self.new.sizes.items ≡ self.old.sizes.items ++ size ∷ []) }
        ensures lasts { self.new.lasts ≡ self.old.lasts }
        ensures gone { self.new.gone ≡ self.old.gone }
    {
        if self.sizes.push_back(size).is_ok() {
            self.bytes = bytes;
        } else {
            self.forget();
        }
    }

    /// So many messages are gone by now, of all that the topic has had.
    pub fn trim(&mut self, gone: u64)
        ensures sizes { self.new.sizes.items ≡ drop (gone - self.old.gone) self.old.sizes.items }
        ensures gone { self.new.gone ≡ max self.old.gone gone }
        ensures others { (self.new.is_counted ≡ self.old.is_counted) × (self.new.lasts ≡ self.old.lasts) }
    {
        let went = gone.saturating_sub(self.gone);
        self.drop_front(went);
        self.gone = self.gone.max(gone);
    }

    fn drop_front(&mut self, count: u64)
        ensures sizes { self.new.sizes.items ≡ drop count self.old.sizes.items }
        ensures others { (self.new.is_counted ≡ self.old.is_counted) × (self.new.lasts ≡ self.old.lasts) × (self.new.gone ≡ self.old.gone) }
    {
        let most = count.min(self.sizes.len() as u64);
        for _ in 0..most {
            self.drop_first();
        }
    }

    fn drop_first(&mut self)
        ensures sizes { self.new.sizes.items ≡ drop 1 self.old.sizes.items }
        ensures others { (self.new.is_counted ≡ self.old.is_counted) × (self.new.lasts ≡ self.old.lasts) × (self.new.gone ≡ self.old.gone) }
    {
        if let Some(size) = self.sizes.pop_front() {
            self.bytes -= u64::from(size);
        }
    }

    /// Nobody sits at the seat any more.
    pub fn exit(&mut self, seat: u64)
        ensures sizes { self.new.sizes ≡ self.old.sizes }
        ensures lasts { self.new.lasts.seats.items ≡ set self.old.lasts.seats.items seat None }
        ensures others { (self.new.is_counted ≡ self.old.is_counted) × (self.new.gone ≡ self.old.gone) }
    {
        self.lasts.set(seat, None);
    }

    /// Where they are counted, how many they are.
    pub fn bytes(&self) -> Option<u64>
        ensures { result ≡ (if self.now.is_counted then Some (sum self.now.sizes.items) else None) }
    {
        if self.is_counted {
            Some(self.bytes)
        } else {
            None
        }
    }
}

/// Adds the sizes of all messages of the view. How many bytes they have together.
fn fill(sizes: &mut VecDeque<u32>, snapshot: &Snapshot) -> Result<u64, Fault>
    requires { sizes.old.items ≡ [] }
    ensures ok { IfOk result (λ bytes. (sizes.new.items ≡ map entry_size snapshot.now.log) × (bytes ≡ sum sizes.new.items)) }
    ensures err { OnErr result (sizes.new.items ≡ []) }
    ensures fault { IfErr result (λ fault. fault ≡ Fault.NoMemory) }
{
    let log = snapshot.log();
    let mut bytes = 0u64;
    'each: for place in 0..log.count() {
        let Some(message) = log.get(place) else {
            unreachable!();
        };
        let size = size_of(message.entry().body.content());
        if sizes.push_back(size).is_err() {
            sizes.clear();
            return Err(Fault::NoMemory);
        }
        bytes += u64::from(size);
    }
    Ok(bytes)
}

/// The last number of a producer's name, where what was brought was answered so.
fn last_after(weight: Weight, reply: &Reply) -> Option<i64>
    ensures { result ≡ last_after weight reply.now }
{
    match reply {
        Reply::ProducerAdded { last, .. } => Some(*last),
        Reply::Published { .. } => weight.sequence(),
        _ => None,
    }
}

/// The bytes of what is kept, where what was brought was answered so.
fn size_after(weight: Weight, reply: &Reply) -> Option<u32>
    ensures { result ≡ size_after weight reply.now }
{
    match reply {
        Reply::Published { .. } => weight.size(),
        _ => None,
    }
}

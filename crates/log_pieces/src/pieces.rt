// Messages in pieces, most of which several logs may share.
ghost use Rattle.std.specs.Prelude.{◌≡◌, ◌+◌, ◌*◌, ◌<◌, ◌≤◌, List, [], ◌∷◌, ◌++◌, Some, IsTrue, drop, length, map, nat_le, OnOk, OnErr, slice_get, vec_len};
ghost use Rattle.std.specs.List.{position_or_len};
ghost use Rattle.std.specs.Option.{option_copied};
ghost use Rattle.std.specs.List.Sorted.{IsStrictlySortedBy};
ghost use Rattle.position_core.specs.declared.message.Entry.{Entry};
ghost use Rattle.position_core.specs.Position.{position_cmp};
ghost use Rattle.log_pieces.specs.Pieces.{all_of, front, index_of, joined, loosely};
ghost use Rattle.log_pieces.specs.Times.{is_from, moment_after};

use crate::loose::Loose;
use crate::search;
use crate::segments::Segments;
use position_core::{Message, Moment, Position};
use std::alloc::{AllocError, Global};
use std::marker::Model;

/// How many messages a segment has.
const SEGMENT: usize = 1024;

/// Messages of which all but the last ones stand in segments. A clone shares them, and takes a step for each
/// of 32 messages at most, but that it copies the moments.
pub struct Pieces {
    sealed: Segments,
    loose: Loose,
    /// For each segment, the first moment after the times of its messages.
    moments: Vec<u64>,
    /// How many of the first messages went. They stand in segments that other logs may share.
    skipped: usize,
}

impl Drop for Pieces {
    fn drop(self) {
        let Pieces {
            sealed: _,
            loose: _,
            moments: _,
            skipped: _,
        } = self;
    }
}

impl Model for Pieces {
    ghost use Rattle.log_pieces.specs.Pieces.{Parts, ArePieces};

    ghost Value = { Parts };

    ghost view = { λ p. record { sealed = p.sealed; loose = p.loose; skipped = p.skipped } };

    ghost invariant = { λ p. ArePieces (record { sealed = p.sealed; loose = p.loose; skipped = p.skipped }) p.moments.items };
}

impl Pieces {
    pub fn new(alloc: Global) -> Self
        ensures { joined result ≡ [] }
    {
        Pieces {
            sealed: Segments::none(),
            loose: Loose::new(alloc),
            moments: Vec::new(alloc),
            skipped: 0,
        }
    }

    /// How many messages stand in segments.
    fn sealed_count(&self) -> usize
        ensures value { result ≡ 1024 * length self.now.sealed }
        ensures within { result ≤ 1048576 }
    {
        self.sealed.len() * SEGMENT
    }

    /// How many messages there are, those that went too.
    fn total(&self) -> usize
        ensures value { result ≡ length (all_of self.now) }
        ensures within { self.now.skipped ≤ result }
        ensures few { result ≤ 1049600 }
    {
        self.sealed_count() + self.loose.len()
    }

    pub fn count(&self) -> usize
        ensures { result ≡ length (joined self.now) }
    {
        self.total() - self.skipped
    }

    /// The message at the place among all, those that went too.
    fn at(&self, place: usize) -> Option<&Message>
        ensures { option_copied result ≡ slice_get (all_of self.now) place }
    {
        let sealed = self.sealed_count();
        if place < sealed {
            match self.sealed.get(place / SEGMENT) {
                Some(segment) => segment.get(place % SEGMENT),
                None => None,
            }
        } else {
            self.loose.get(place - sealed)
        }
    }

    pub fn get(&self, index: usize) -> Option<&Message>
        ensures { option_copied result ≡ slice_get (joined self.now) index }
    {
        if index < self.total() - self.skipped {
            self.at(self.skipped + index)
        } else {
            None
        }
    }

    /// The index of the message at the position, where positions rise. Takes the logarithm of the number
    /// of messages.
    pub fn index_of(&self, at: Position) -> Option<usize>
        requires { IsStrictlySortedBy position_cmp (map (λ e. e.position) (joined self.now)) }
        ensures { result ≡ index_of at (joined self.now) }
    {
        search::by_halving(self, at)
    }

    /// The same, in constant time where it is the likely one.
    pub fn index_near(&self, at: Position, likely: usize) -> Option<usize>
        requires { IsStrictlySortedBy position_cmp (map (λ e. e.position) (joined self.now)) }
        ensures { result ≡ index_of at (joined self.now) }
    {
        search::index_near(self, at, likely)
    }

    /// Whether all messages of the segment are earlier than the time, as its moment says.
    fn is_earlier(&self, place: usize, time: Moment) -> bool
        ensures { IsTrue result → (s : List Entry) → slice_get self.now.sealed place ≡ Some s → (moment_after 0 s ≤ time) × (length s ≡ 1024) }
    {
        match self.moments.get(place) {
            Some(moment) => *moment <= time.millis(),
            None => false,
        }
    }

    /// How many messages of a segment, from one on, stand before the first of them that is not earlier than
    /// the time.
    fn earlier_in(&self, place: usize, from: usize, time: Moment) -> usize
        requires { from ≤ 1024 }
        ensures value { (s : List Entry) → slice_get self.now.sealed place ≡ Some s → result ≡ position_or_len (is_from time) (drop from s) }
        ensures within { from + result ≤ 1024 }
    {
        if self.is_earlier(place, time) {
            return SEGMENT - from;
        }
        match self.sealed.get(place) {
            Some(segment) => segment.count_earlier(from, time),
            None => 0,
        }
    }

    /// How many messages stand before the first that is not earlier than the time. Takes a step for each
    /// segment, and goes through one, or two after a trim.
    pub fn count_earlier(&self, time: Moment) -> usize
        ensures { result ≡ position_or_len (λ e. nat_le time e.time) (joined self.now) }
    {
        let mut count = 0;
        for place in 0..self.sealed.len() {
            let from = self.skipped.saturating_sub(place * SEGMENT).min(SEGMENT);
            let here = self.earlier_in(place, from, time);
            count += here;
            if from + here < SEGMENT {
                return count;
            }
        }
        let from = self.skipped.saturating_sub(self.sealed_count());
        count + self.loose.count_earlier(from, time)
    }

    /// Puts the message after those that are sealed with it. Segments whose messages all went leave.
    fn seal(&mut self, alloc: Global, message: Message) -> Result<(), AllocError>
        requires full { length (loosely self.old.loose) ≡ 1024 }
        requires last { 0 < length self.old.loose.last }
        requires room { length (joined self.old) < 1048576 }
        ensures ok { OnOk result ((joined self.new ≡ joined self.old ++ message ∷ []) × (self.new.loose.last ≡ message ∷ [])) }
        ensures err { OnErr result (self.new ≡ self.old) }
    {
        let gone = self.sealed.len().min(self.skipped / SEGMENT);
        let segment = self.loose.segment(alloc)?;
        let moment = segment.moment_after();
        let sealed = self.sealed.with(alloc, gone, segment)?;
        self.moments.push(moment)?;
        remove_front(&mut self.moments, gone);
        self.sealed = sealed;
        self.skipped -= gone * SEGMENT;
        self.loose.begin(message);
        Ok(())
    }

    pub fn push(&mut self, alloc: Global, message: Message) -> Result<(), AllocError>
        requires { length (joined self.old) < 1048576 }
        ensures ok { OnOk result (joined self.new ≡ joined self.old ++ message ∷ []) }
        ensures some { OnOk result (0 < length self.new.loose.last) }
        ensures err { OnErr result (self.new ≡ self.old) }
    {
        if self.loose.len() == SEGMENT {
            return self.seal(alloc, message);
        }
        self.loose.push(alloc, message)?;
        Ok(())
    }

    /// Takes the last message out.
    pub fn pop(&mut self)
        requires { 0 < length self.old.loose.last }
        ensures { joined self.new ≡ front (joined self.old) }
    {
        let left = self.total() - 1;
        self.skipped = self.skipped.min(left);
        self.loose.pop();
    }

    /// Takes the first messages out, so many. Takes no memory, and gives back none: of those that went,
    /// whole segments leave when the next segment is sealed.
    pub fn drop_front(&mut self, count: usize)
        requires { count ≤ length (joined self.old) }
        ensures { joined self.new ≡ drop count (joined self.old) }
    {
        let left = self.count() - count;
        self.skipped = self.total() - left;
    }
}

fn remove_front(moments: &mut Vec<u64>, count: usize)
    requires { count ≤ vec_len moments.old }
    ensures { moments.new.items ≡ drop count moments.old.items }
{
    drop(moments.drain(..count));
}

impl Clone for Pieces {
    ghost is_clone = { λ pieces copy. copy ≡ pieces };

    fn clone(&self) -> Result<Self, AllocError> {
        Ok(Pieces {
            sealed: self.sealed.clone()?,
            loose: self.loose.clone()?,
            moments: self.moments.clone()?,
            skipped: self.skipped,
        })
    }
}

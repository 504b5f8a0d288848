// The log of a topic.
ghost use Rattle.std.specs.Prelude.{◌≡◌, ◌<◌, ◌≤◌, ◌+◌, ◌^◌, None, false, length, map, nat_le, slice_get, IfOk, OnOk, OnErr, is_some, All};
ghost use Rattle.std.specs.Option.{option_copied};
ghost use Rattle.std.specs.List.{position_or_len};
ghost use Rattle.std.specs.List.Sorted.{IsStrictlySortedBy};
ghost use Rattle.position_core.specs.Position.{position_cmp};
ghost use Rattle.delivery_machine.specs.State.{State};
ghost use Rattle.delivery_machine.specs.Words.{next_position};
ghost use Rattle.delivery_machine.specs.Refusals.{is_full};
ghost use Rattle.delivery_machine.specs.Producing.{with_message};
ghost use Rattle.delivery_machine.specs.Trimming.{trimmed};
ghost use Rattle.entry_log.specs.Log.{IsLogOf, empty_log, next_in, is_full_log, appended, popped, rolled, without_first};
ghost use Rattle.log_pieces.specs.Pieces.{index_of, joined};

use crate::open_ledger::{LAST_LEDGER, OpenLedger};
use log_pieces::Pieces;
use position_core::{LedgerSize, Message, Moment, Position};
use std::alloc::{AllocError, Global};
use std::marker::Model;

/// How many messages a log has at most.
const MOST: usize = 1_048_576;

/// The messages of a topic in the order of their positions, and the ledger that the next one goes into.
/// A call takes constant time, but for a growth, where it does not say otherwise. Only `append` and `copy`
/// take memory.
#[derive(Drop)]
pub struct EntryLog {
    pieces: Pieces,
    current: OpenLedger,
    undo: Option<OpenLedger>,
    ledger_size: LedgerSize,
}

impl Model for EntryLog {
    ghost use Rattle.std.specs.Option.{option_map};
    ghost use Rattle.entry_log.specs.Log.{Log};
    ghost use Rattle.log_pieces.specs.Pieces.{joined};
    ghost use Rattle.entry_log.specs.Kept.{IsKept};

    ghost Value = { Log };

    ghost view = { λ q. record {
      log = joined q.pieces;
      ledger = q.current.ledger;
      ledger_size = q.ledger_size;
      undo = option_map (λ p. p.ledger) q.undo;
    } };

    ghost invariant = { λ q. IsKept q.pieces q.current q.undo };
}

impl EntryLog {
    /// Without messages, and at the first ledger.
    pub fn new(alloc: Global, ledger_size: LedgerSize) -> Self
        ensures { result ≡ empty_log ledger_size }
    {
        EntryLog {
            pieces: Pieces::new(alloc),
            current: OpenLedger { ledger: 0, used: 0 },
            undo: None,
            ledger_size,
        }
    }

    /// The messages of a snapshot, and a ledger after theirs, into which further messages go.
    pub fn restored(pieces: Pieces, ledger: u64, ledger_size: LedgerSize) -> Self
        requires rising { IsStrictlySortedBy position_cmp (map (λ e. e.position) (joined pieces)) }
        requires before { All (λ e. e.position.ledger < ledger) (joined pieces) }
        requires bounded { ledger ≤ 2 ^ 62 + 1 }
        requires short { length (joined pieces) ≤ 1048576 }
        ensures { result ≡ record { log = joined pieces; ledger = ledger; ledger_size = ledger_size; undo = None } }
    {
        EntryLog {
            pieces,
            current: OpenLedger { ledger, used: 0 },
            undo: None,
            ledger_size,
        }
    }

    /// The messages, of which the copy shares all but 32 at most.
    pub fn pieces(&self) -> Result<Pieces, AllocError>
        ensures { IfOk result (λ pieces. joined pieces ≡ self.now.log) }
    {
        self.pieces.clone()
    }

    /// The ledger that messages go into.
    pub fn ledger(&self) -> u64
        ensures { result ≡ self.now.ledger }
    {
        self.current.ledger
    }

    /// How many messages a ledger has at most.
    pub fn ledger_size(&self) -> LedgerSize
        ensures { result ≡ self.now.ledger_size }
    {
        self.ledger_size
    }

    /// How many messages the log has. Their positions rise, whatever was done with it.
    pub fn len(&self) -> usize
        ensures value { result ≡ length self.now.log }
        ensures short { result ≤ 1048576 }
        ensures rising { IsStrictlySortedBy position_cmp (map (λ e. e.position) self.now.log) }
    {
        self.pieces.count()
    }

    /// The message at an index.
    pub fn get(&self, index: usize) -> Option<&Message>
        ensures { option_copied result ≡ slice_get self.now.log index }
    {
        self.pieces.get(index)
    }

    /// Where the message stands, if it is in the open ledger, or if all ledgers from the first message's up
    /// to its own are full.
    fn likely_index(&self, at: Position) -> usize {
        if at.ledger == self.current.ledger {
            let end = self.pieces.count() as u64;
            return end
                .saturating_add(at.entry)
                .saturating_sub(self.current.used) as usize;
        }
        match self.pieces.get(0) {
            Some(first) => self.entries_between(first.position(), at) as usize,
            None => 0,
        }
    }

    /// How many positions there are from the one up to the other, where all ledgers are full.
    fn entries_between(&self, from: Position, to: Position) -> u64 {
        let ledgers = to.ledger.saturating_sub(from.ledger);
        ledgers
            .saturating_mul(u64::from(self.ledger_size.get()))
            .saturating_add(to.entry)
            .saturating_sub(from.entry)
    }

    /// The index of the message at the position. Takes constant time where no ledger from the first message's
    /// up to its own was left before it was full, or where its own is open, and else the logarithm of the
    /// log's length.
    pub fn index_of(&self, at: Position) -> Option<usize>
        ensures { result ≡ index_of at self.now.log }
    {
        self.pieces.index_near(at, self.likely_index(at))
    }

    /// How many messages stand before the first that is not earlier than the time. Takes a step for each
    /// 1,024 messages, and goes through 2,048 at most.
    pub fn count_earlier(&self, time: Moment) -> usize
        ensures { result ≡ position_or_len (λ e. nat_le time e.time) self.now.log }
    {
        self.pieces.count_earlier(time)
    }

    /// The position of the next message.
    pub fn next_position(&self) -> Position
        ensures value { result ≡ next_in self.now }
        ensures machine { (s : State) → IsLogOf self.now s → result ≡ next_position s }
    {
        self.current.next(self.ledger_size)
    }

    /// Whether no further message fits.
    pub fn is_full(&self) -> bool
        ensures value { result ≡ is_full_log self.now }
        ensures machine { (s : State) → IsLogOf self.now s → result ≡ is_full s }
    {
        self.pieces.count() >= MOST || self.next_position().ledger > LAST_LEDGER
    }

    /// Puts the message at the end.
    pub fn append(&mut self, alloc: Global, message: Message) -> Result<(), AllocError>
        requires room { is_full_log self.old ≡ false }
        requires next { message.position ≡ next_in self.old }
        ensures ok { OnOk result (self.new ≡ appended message self.old) }
        ensures err { OnErr result (self.new ≡ self.old) }
        ensures machine { OnOk result ((s : State) → IsLogOf self.old s → IsLogOf self.new (with_message s message)) }
    {
        let current = OpenLedger::after(self.current.next(self.ledger_size));
        self.pieces.push(alloc, message)?;
        self.undo = Some(self.current);
        self.current = current;
        Ok(())
    }

    /// Takes the message back that was appended by the last call that changed the log; the ledger is again
    /// what it was before. Answers whether there was such a message.
    pub fn pop(&mut self) -> bool
        ensures log { self.new ≡ popped self.old }
        ensures done { result ≡ is_some self.old.undo }
    {
        let Some(before) = self.undo else {
            return false;
        };
        self.pieces.pop();
        self.current = before;
        self.undo = None;
        true
    }

    /// Takes the first messages out, so many. The last one of all stays. Takes no memory.
    pub fn drop_front(&mut self, count: usize)
        requires { count < length self.old.log }
        ensures value { self.new ≡ without_first count self.old }
        ensures machine { (s : State) → IsLogOf self.old s → IsLogOf self.new (trimmed count s) }
    {
        self.pieces.drop_front(count);
        self.undo = None;
    }

    /// Further messages go into the next ledger.
    pub fn roll(&mut self)
        ensures { self.new ≡ rolled self.old }
    {
        self.current = self.current.rolled();
        self.undo = None;
    }

    /// An equal log, which shares all messages but 32 at most.
    pub fn copy(&self) -> Result<Self, AllocError>
        ensures { IfOk result (λ copy. copy ≡ self.now) }
    {
        Ok(EntryLog {
            pieces: self.pieces.clone()?,
            current: self.current,
            undo: self.undo,
            ledger_size: self.ledger_size,
        })
    }
}

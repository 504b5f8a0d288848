// A queue of letters: they come in at its back, and leave at its front once they are published.
ghost use Rattle.std.specs.Prelude.{◌≡◌, ◌≤◌, [], false, length, None, IfOk, IfSome, IfNone, OnOk, OnErr, is_some, if◌then◌else◌};
ghost use Rattle.std.specs.List.{All, Any};
ghost use Rattle.std.specs.Option.{option_copied};
ghost use Rattle.std.specs.Ordering.{is_lt};
ghost use Rattle.position_core.specs.Position.{position_cmp};
ghost use Rattle.delivery_machine.specs.State.{Subscription};
ghost use Rattle.delivery_machine.specs.Producing.{storing, storing_below};
ghost use Rattle.delivery_machine.specs.Dying.{burying, first_safe, is_next_letter, moving};
ghost use Rattle.dead_core.specs.Letters.{AreLettersOf, none_dead, ending_with, without_last, all_safe, safe_below, next_safe, is_next, without_first};

use delivery_machine::DeadLetter;
use position_core::{Ordinal, Position};
use std::alloc::{AllocError, Global};
use std::collections::VecDeque;
use std::marker::Model;

fn queue_of(alloc: Global, letters: &[DeadLetter]) -> Result<VecDeque<DeadLetter>, AllocError>
    ensures { IfOk result (λ queue. queue.items ≡ letters.now) }
{
    let mut queue = VecDeque::new(alloc);
    for letter in letters {
        queue.push_back(letter.clone()?)?;
    }
    Ok(queue)
}

/// The dead letters of a subscription, in the order of dying. The first of them are safe: their deaths are
/// stored, so that they may be published. A call takes constant time, but for a growth, and only `push`
/// takes memory.
pub struct DeadQueue {
    letters: VecDeque<DeadLetter>,
    safe: usize,
}

impl Drop for DeadQueue {
    fn drop(self) {
        let DeadQueue {
            letters: _,
            safe: _,
        } = self;
    }
}

impl Model for DeadQueue {
    ghost use Rattle.std.specs.Prelude.{◌≤◌, length};
    ghost use Rattle.dead_core.specs.Letters.{Letters};
    ghost use Rattle.dead_core.specs.Codes.{coded_letters};

    ghost Value = { Letters };

    ghost coded = { coded_letters };

    ghost view = { λ q. record { dead = q.letters.items; safe = q.safe } };

    ghost invariant = { λ q. q.safe ≤ length q.letters.items };
}

impl DeadQueue {
    /// Nothing died.
    pub fn new(alloc: Global) -> Self
        ensures value { result ≡ none_dead }
        ensures machine { (sub : Subscription) → sub.dead ≡ [] → sub.safe ≡ 0 → AreLettersOf result sub }
    {
        DeadQueue {
            letters: VecDeque::new(alloc),
            safe: 0,
        }
    }

    /// The letters of a topic that goes on from its snapshot, where all deaths are stored.
    pub fn restored(alloc: Global, letters: &[DeadLetter]) -> Result<Self, AllocError>
        ensures { IfOk result (λ q. q ≡ record { dead = letters.now; safe = length letters.now }) }
    {
        Ok(DeadQueue {
            letters: queue_of(alloc, letters)?,
            safe: letters.len(),
        })
    }

    /// A message dies: its letter is the last one, and not safe yet.
    pub fn push(&mut self, letter: DeadLetter) -> Result<(), AllocError>
        ensures within { self.old.safe ≤ length self.old.dead }
        ensures ok { OnOk result (self.new ≡ ending_with letter self.old) }
        ensures err { OnErr result (self.new ≡ self.old) }
        ensures machine { OnOk result ((sub : Subscription) → AreLettersOf self.old sub → AreLettersOf self.new (burying letter sub)) }
    {
        self.letters.push_back(letter)?;
        Ok(())
    }

    /// Takes the last letter back, where it is not safe.
    pub fn take_back(&mut self)
        ensures { self.new ≡ without_last self.old }
    {
        if self.safe < self.letters.len() {
            self.letters.pop_back();
        }
    }

    /// Takes the first letter out, if there is one.
    pub fn take_first(&mut self)
        ensures { self.new ≡ without_first self.old }
    {
        self.letters.pop_front();
        self.safe = self.safe.saturating_sub(1);
    }

    /// The deaths below the ordinal are stored, and those that were.
    pub fn mark_safe_below(&mut self, ordinal: Ordinal)
        ensures value { self.new ≡ safe_below ordinal self.old }
        ensures machine { (sub : Subscription) → AreLettersOf self.old sub → AreLettersOf self.new (storing_below ordinal sub) }
    {
        let stored = self
            .letters
            .iter()
            .filter(|letter| letter.ordinal < ordinal)
            .count();
        self.safe = self.safe.max(stored);
    }

    /// All deaths so far are stored.
    pub fn mark_safe(&mut self)
        ensures value { self.new ≡ all_safe self.old }
        ensures machine { (sub : Subscription) → AreLettersOf self.old sub → AreLettersOf self.new (storing sub) }
    {
        self.safe = self.count();
    }

    /// The letter that is published next: the first one, where it is safe.
    pub fn next_safe(&self) -> Option<&DeadLetter>
        ensures value { option_copied result ≡ next_safe self.now }
        ensures machine { (sub : Subscription) → AreLettersOf self.now sub → option_copied result ≡ first_safe sub }
    {
        if self.safe == 0 {
            return None;
        }
        self.letters.front()
    }

    fn is_next(&self, ordinal: Ordinal) -> bool
        ensures { result ≡ is_next ordinal self.now }
    {
        match self.next_safe() {
            Some(letter) => letter.ordinal == ordinal,
            None => false,
        }
    }

    /// Takes the first letter out where it is safe and of this ordinal: it was published. Else nothing
    /// changes.
    pub fn done(&mut self, ordinal: Ordinal) -> Option<DeadLetter>
        ensures letter { result ≡ (if is_next ordinal self.old then next_safe self.old else None) }
        ensures others { self.new ≡ (if is_next ordinal self.old then without_first self.old else self.old) }
        ensures next { (sub : Subscription) → AreLettersOf self.old sub → is_some result ≡ is_next_letter ordinal sub }
        ensures machine { IfSome result (λ letter. (sub : Subscription) → AreLettersOf self.old sub → AreLettersOf self.new (moving letter sub)) }
    {
        if !self.is_next(ordinal) {
            return None;
        }
        self.safe -= 1;
        self.letters.pop_front()
    }

    /// Copies of the letters, which share their targets.
    pub fn letters(&self, alloc: Global) -> Result<Vec<DeadLetter>, AllocError>
        ensures { IfOk result (λ letters. letters.items ≡ self.now.dead) }
    {
        let mut letters = Vec::new(alloc);
        'each: for i in 0..self.letters.len() {
            letters.push(self.letters[i].clone()?)?;
        }
        Ok(letters)
    }

    /// The first position at which a letter's message stands. Takes a step for each letter.
    pub fn first_position(&self) -> Option<Position>
        ensures there { IfSome result (λ p. Any (λ d. d.position ≡ p) self.now.dead) }
        ensures least { IfSome result (λ p. All (λ d. is_lt (position_cmp d.position p) ≡ false) self.now.dead) }
        ensures none { IfNone result (self.now.dead ≡ []) }
    {
        self.letters.iter().map(|letter| letter.position).min()
    }

    pub fn count(&self) -> usize
        ensures { result ≡ length self.now.dead }
    {
        self.letters.len()
    }
}

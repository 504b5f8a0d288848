// The layers of a tree of words.
ghost use Rattle.std.specs.Prelude.{◌≡◌, ℕ, ◌+◌, ◌-◌, ◌*◌, ◌≤◌, ◌^◌, length, vec_len};
ghost use Rattle.number_sets.specs.Bits.{has, is_used};

use crate::layer::Layer;
use crate::words::{BITS, next_in_word, put, remove_front, take_out, widen, wipe, words_for};
use std::alloc::{AllocError, Global};

/// A layer under one that has the indexes of its words that are not empty.
#[derive(Drop)]
pub(crate) struct Summed<S: Layer + Drop> {
    words: Vec<u64>,
    above: S,
    ghost few: { vec_len words ≤ 2 ^ 58 },
    ghost covered: { vec_len words ≤ S.room above },
    ghost summed: { (w : ℕ) → S.has above w ≡ is_used words.items w },
}

impl<S: Layer + Drop> Layer for Summed<S> {
    ghost has = { λ s. has s.words.items };

    ghost room = { λ s. 64 * vec_len s.words };

    fn new(alloc: Global) -> Self {
        Summed {
            words: Vec::new(alloc),
            above: S::new(alloc),
        }
    }

    fn grow(&mut self, limit: u64) -> Result<(), AllocError> {
        let count = words_for(limit);
        self.above.grow(count as u64)?;
        widen(&mut self.words, count)
    }

    fn insert(&mut self, number: u64) {
        if put(&mut self.words, number) {
            self.above.insert(number / BITS);
        }
    }

    fn remove(&mut self, number: u64) {
        if take_out(&mut self.words, number) {
            self.above.remove(number / BITS);
        }
    }

    fn next_from(&self, from: u64) -> Option<u64> {
        match next_in_word(&self.words, from) {
            Some(next) => Some(next),
            None => {
                let word = self.above.next_from(from / BITS + 1)?;
                next_in_word(&self.words, BITS * word)
            }
        }
    }

    fn empty(&mut self) {
        wipe(&mut self.words);
        self.above.empty();
    }

    fn clear(&mut self) {
        self.words.clear();
        self.above.clear();
    }
}

impl<S: Layer + Drop> Summed<S> {
    /// Takes the first words out, so many, and makes the layers above anew.
    pub(crate) fn lower(&mut self, count: usize)
        ensures has { (i : ℕ) → has self.new.words.items i ≡ has self.old.words.items (64 * count + i) }
        ensures room { 64 * vec_len self.new.words ≡ 64 * vec_len self.old.words - 64 * count }
    {
        remove_front(&mut self.words, count);
        sum_up(&self.words, &mut self.above);
    }
}

/// Makes the set that of the indexes of the words that are not empty.
fn sum_up<S: Layer>(words: &[u64], above: &mut S)
    requires { length words.now ≤ S.room above.old }
    ensures has { (w : ℕ) → S.has above.new w ≡ is_used words.now w }
    ensures room { S.room above.new ≡ S.room above.old }
{
    above.empty();
    for index in 0..words.len() {
        if words[index] != 0 {
            above.insert(index as u64);
        }
    }
}

// The top of a tree of words.
ghost use Rattle.std.specs.Prelude.{◌*◌, ◌≤◌, ◌^◌, vec_len};
ghost use Rattle.number_sets.specs.Bits.{has};

use crate::layer::Layer;
use crate::words::{BITS, next_in_word, next_used, put, take_out, widen, wipe, words_for};
use std::alloc::{AllocError, Global};

/// Words that are gone through one by one.
#[derive(Drop)]
pub(crate) struct Top {
    words: Vec<u64>,
    ghost few: { vec_len words ≤ 2 ^ 58 },
}

impl Layer for Top {
    ghost has = { λ s. has s.words.items };

    ghost room = { λ s. 64 * vec_len s.words };

    fn new(alloc: Global) -> Self {
        Top {
            words: Vec::new(alloc),
        }
    }

    fn grow(&mut self, limit: u64) -> Result<(), AllocError> {
        widen(&mut self.words, words_for(limit))
    }

    fn insert(&mut self, number: u64) {
        put(&mut self.words, number);
    }

    fn remove(&mut self, number: u64) {
        take_out(&mut self.words, number);
    }

    fn next_from(&self, from: u64) -> Option<u64> {
        match next_in_word(&self.words, from) {
            Some(next) => Some(next),
            None => {
                let word = next_used(&self.words, from / BITS + 1)?;
                next_in_word(&self.words, BITS * word)
            }
        }
    }

    fn empty(&mut self) {
        wipe(&mut self.words);
    }

    fn clear(&mut self) {
        self.words.clear();
    }
}

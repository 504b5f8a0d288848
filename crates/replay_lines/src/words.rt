// The words of a line, which is split at single spaces.
ghost use Rattle.std.specs.Prelude.{◌≡◌, ◌<◌, ◌↔◌, List, ℕ, Option, [], ◌∷◌, IsTrue, IfOk, IfErr, OnOk, OnErr, codes, length};
ghost use Rattle.std.specs.Option.{option_copied};
ghost use Rattle.replay_lines.specs.Splitting.{words_of, NoneEmpty};
ghost use Rattle.replay_lines.specs.Grammar.{last_word};
ghost use Rattle.replay_lines.specs.declared.words.Unread.TheVariants.{BadLine};

use crate::splitting::split;
use std::alloc::AllocError;
use std::marker::Model;

/// Why a line, or a word of it, was not read.
#[derive(Clone, Copy, Debug, PartialEq, Eq)]
pub enum Unread {
    /// It has another form.
    BadLine,
    /// A growth was refused.
    Memory,
}

impl From<AllocError> for Unread {
    ghost use Rattle.replay_lines.specs.declared.words.Unread.TheVariants.{Memory};

    ghost from_gives = { λ _ e. e ≡ Memory };

    fn from(_: AllocError) -> Unread {
        Unread::Memory
    }
}

/// Whether the word stands for none.
pub fn is_none(word: &[u8]) -> bool
    ensures { IsTrue result ↔ (word.now ≡ codes "-") }
{
    matches!(word, b"-")
}

/// The words of a line that were not taken yet. Contracts see them as a list.
#[derive(Drop)]
pub struct Words<'a> {
    rest: Option<&'a [u8]>,
}

impl<'a> Model for Words<'a> {
    ghost use Rattle.std.specs.Prelude.{ℕ, List};
    ghost use Rattle.std.specs.Option.{option_copied};
    ghost use Rattle.replay_lines.specs.Splitting.{words_left};

    ghost Value = { List (List ℕ) };

    ghost view = { λ w. words_left (option_copied w.rest) };
}

impl<'a> Words<'a> {
    pub fn of(line: &'a [u8]) -> Self
        ensures { result ≡ words_of line.now }
    {
        Words { rest: Some(line) }
    }

    /// The next word, which is not empty.
    pub fn take(&mut self) -> Result<&'a [u8], Unread>
        ensures ok { IfOk result (λ word. self.old ≡ word.now ∷ self.new) }
        ensures some { IfOk result (λ word. 0 < length word.now) }
        ensures bad { IfErr result (λ unread. unread ≡ BadLine) }
        ensures none { OnErr result (NoneEmpty self.old → self.old ≡ []) }
    {
        let Some(text) = self.rest else {
            return Err(Unread::BadLine);
        };
        let (word, rest) = match split(text, b' ') {
            Some((word, rest)) => (word, Some(rest)),
            None => (text, None),
        };
        if word.is_empty() {
            return Err(Unread::BadLine);
        }
        self.rest = rest;
        Ok(word)
    }

    /// No word is left.
    pub fn end(self) -> Result<(), Unread>
        ensures ok { OnOk result (self.entry ≡ []) }
        ensures bad { IfErr result (λ unread. unread ≡ BadLine) }
        ensures some { OnErr result (self.entry ≡ [] → ⊥) }
    {
        match self.rest {
            None => Ok(()),
            Some(_) => Err(Unread::BadLine),
        }
    }

    /// The only word that is left, where there is one.
    pub fn last(self) -> Result<Option<&'a [u8]>, Unread>
        ensures ok { IfOk result (λ last. self.entry ≡ last_word (option_copied last)) }
        ensures some { OnOk result (NoneEmpty self.entry) }
        ensures bad { IfErr result (λ unread. unread ≡ BadLine) }
        ensures more { OnErr result ((last : Option (List ℕ)) → NoneEmpty self.entry → self.entry ≡ last_word last → ⊥) }
    {
        match self.rest {
            None => Ok(None),
            Some(_) => match self.one() {
                Ok(word) => Ok(Some(word)),
                Err(unread) => Err(unread),
            },
        }
    }

    /// The next two words.
    pub fn take_two(&mut self) -> Result<(&'a [u8], &'a [u8]), Unread>
        ensures ok { IfOk result (λ pair. self.old ≡ pair.0.now ∷ pair.1.now ∷ self.new) }
        ensures some { OnOk result (NoneEmpty self.new → NoneEmpty self.old) }
        ensures bad { IfErr result (λ unread. unread ≡ BadLine) }
        ensures fewer { OnErr result ((first second : List ℕ) (rest : List (List ℕ)) → NoneEmpty self.old → self.old ≡ first ∷ second ∷ rest → ⊥) }
    {
        let first = self.take()?;
        let second = self.take()?;
        Ok((first, second))
    }

    /// The next three words.
    pub fn take_three(&mut self) -> Result<(&'a [u8], &'a [u8], &'a [u8]), Unread>
        ensures ok { IfOk result (λ trio. self.old ≡ trio.0.now ∷ trio.1.now ∷ trio.2.now ∷ self.new) }
        ensures some { OnOk result (NoneEmpty self.new → NoneEmpty self.old) }
        ensures bad { IfErr result (λ unread. unread ≡ BadLine) }
        ensures fewer { OnErr result ((first second third : List ℕ) (rest : List (List ℕ)) → NoneEmpty self.old → self.old ≡ first ∷ second ∷ third ∷ rest → ⊥) }
    {
        let first = self.take()?;
        let (second, third) = self.take_two()?;
        Ok((first, second, third))
    }

    /// The only word that is left.
    pub fn one(mut self) -> Result<&'a [u8], Unread>
        ensures ok { IfOk result (λ word. self.entry ≡ word.now ∷ []) }
        ensures some { OnOk result (NoneEmpty self.entry) }
        ensures bad { IfErr result (λ unread. unread ≡ BadLine) }
        ensures other { OnErr result ((word : List ℕ) → NoneEmpty self.entry → self.entry ≡ word ∷ [] → ⊥) }
    {
        let word = self.take()?;
        self.end()?;
        Ok(word)
    }

    /// The only two words that are left.
    pub fn two(mut self) -> Result<(&'a [u8], &'a [u8]), Unread>
        ensures ok { IfOk result (λ pair. self.entry ≡ pair.0.now ∷ pair.1.now ∷ []) }
        ensures some { OnOk result (NoneEmpty self.entry) }
        ensures bad { IfErr result (λ unread. unread ≡ BadLine) }
        ensures other { OnErr result ((first second : List ℕ) → NoneEmpty self.entry → self.entry ≡ first ∷ second ∷ [] → ⊥) }
    {
        let first = self.take()?;
        Ok((first, self.one()?))
    }

    /// The only three words that are left.
    pub fn three(mut self) -> Result<(&'a [u8], &'a [u8], &'a [u8]), Unread>
        ensures ok { IfOk result (λ trio. self.entry ≡ trio.0.now ∷ trio.1.now ∷ trio.2.now ∷ []) }
        ensures some { OnOk result (NoneEmpty self.entry) }
        ensures bad { IfErr result (λ unread. unread ≡ BadLine) }
        ensures other { OnErr result ((first second third : List ℕ) → NoneEmpty self.entry → self.entry ≡ first ∷ second ∷ third ∷ [] → ⊥) }
    {
        let first = self.take()?;
        let (second, third) = self.two()?;
        Ok((first, second, third))
    }
}

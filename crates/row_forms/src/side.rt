// Two lists in one order, side by side.
ghost use Rattle.std.specs.Prelude.{◌≡◌, ◌++◌, [], IfSome, IfNone};
ghost use Rattle.row_forms.specs.Sides.{IsOfOneKey, new_of, old_of};

use delivery_machine::{Author, Counted, DeadLetter, KeptSubscription};
use std::cmp::Ordering;

/// What comes first in two lists: it stands in one of them alone, or one of its key stands in each.
#[derive(Clone, Copy)]
pub(crate) enum Side<T: Copy> {
    Gone(T),
    New(T),
    Both(T, T),
}

/// What stands in the order of a key.
pub(crate) trait Keyed {
    ghost same_key: { Self → Self → Type 0 };

    fn order(&self, other: &Self) -> Ordering
        ensures { result ≡ Ordering.Equal → same_key self.now other.now };
}

impl Keyed for KeptSubscription {
    ghost use Rattle.std.specs.Prelude.{◌≡◌};

    ghost same_key = { λ old new. old.name ≡ new.name };

    fn order(&self, other: &Self) -> Ordering {
        self.name.order(&other.name)
    }
}

impl Keyed for DeadLetter {
    ghost use Rattle.std.specs.Prelude.{⊤};

    ghost same_key = { λ old new. ⊤ };

    fn order(&self, other: &Self) -> Ordering {
        self.ordinal.cmp(&other.ordinal)
    }
}

impl Keyed for Counted {
    ghost use Rattle.std.specs.Prelude.{◌≡◌};

    ghost same_key = { λ old new. old.position ≡ new.position };

    fn order(&self, other: &Self) -> Ordering {
        self.position.cmp(&other.position)
    }
}

impl Keyed for Author {
    ghost use Rattle.std.specs.Prelude.{⊤};

    ghost same_key = { λ old new. ⊤ };

    fn order(&self, other: &Self) -> Ordering {
        self.index.cmp(&other.index)
    }
}

/// What is left to see of two lists.
#[derive(Drop)]
pub(crate) struct Walk<'a, T> {
    olds: &'a [T],
    news: &'a [T],
}

impl<'a, T: Keyed> Walk<'a, T> {
    pub(crate) fn of(olds: &'a [T], news: &'a [T]) -> Self
        ensures olds { result.olds.now ≡ olds.now }
        ensures news { result.news.now ≡ news.now }
    {
        Walk { olds, news }
    }

    /// What comes next.
    pub(crate) fn next(&mut self) -> Option<Side<&'a T>>
        ensures olds { IfSome result (λ side. old_of (λ x. x.now) side ++ self.new.olds.now ≡ self.old.olds.now) }
        ensures news { IfSome result (λ side. new_of (λ x. x.now) side ++ self.new.news.now ≡ self.old.news.now) }
        ensures key { IfSome result (IsOfOneKey (λ x y. T.same_key x.now y.now)) }
        ensures no_olds { IfNone result (self.old.olds.now ≡ []) }
        ensures no_news { IfNone result (self.old.news.now ≡ []) }
    {
        let Some((old, olds)) = self.olds.split_first() else {
            let (new, news) = self.news.split_first()?;
            self.news = news;
            return Some(Side::New(new));
        };
        let Some((new, news)) = self.news.split_first() else {
            self.olds = olds;
            return Some(Side::Gone(old));
        };
        match old.order(new) {
            Ordering::Less => {
                self.olds = olds;
                Some(Side::Gone(old))
            }
            Ordering::Equal => {
                self.olds = olds;
                self.news = news;
                Some(Side::Both(old, new))
            }
            Ordering::Greater => {
                self.news = news;
                Some(Side::New(new))
            }
        }
    }
}

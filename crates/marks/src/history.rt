// The history of the values that were named, as a book whose first word is its length.
use logbook::{Gain, Plain, Play, Rule};
use std::marker::{Brand, PhantomData};

/// The rule of the book: its first word is the length of its history.
pub struct Law;

impl<E> Rule<E, u64> for Law {
    ghost use Rattle.std.specs.Prelude.{[]};
    ghost use base.Fml.{ftrue};
    ghost use Rattle.marks.specs.Rules.{IsKept};

    ghost holds = { λ cells log. IsKept cells log };

    ghost first = { [] };

    ghost hinted = { λ n log. Unit {0} };

    ghost shows = { λ log. [] };

    ghost keeps = { λ names log. ftrue };

    ghost moves = { λ ask before after answer. Unit {0} };
}

/// Callers trade nothing.
pub struct Nothing;

impl<E> Gain<E, u64> for Nothing {
    ghost use base.Fml.{ftrue};

    ghost after = { λ names about answer. ftrue };
}

/// What is named of a value of another type.
pub trait Asks<X, E> {
    ghost ask: { X → E };
}

/// A step that adds what is asked of a value.
pub struct Add<M> {
    of: PhantomData<M>,
}

impl<E, M> Play<E, u64> for Add<M> {
    ghost use Rattle.marks.specs.Rules.{Adds};

    ghost then = { Adds };
}

impl<X, E, M: Asks<X, E>> Plain<X, E, u64> for Add<M> {
    ghost use Rattle.std.specs.Prelude.{None};

    ghost ask = { λ about. M.ask about };

    ghost state = { λ about. None };
}

/// Which history it is. Each call of a program picks it.
pub trait Naming {
    ghost use Rattle.logbook.specs.Pages.{Book};

    ghost book: { Book };
}

impl Naming for Brand {
    ghost book = { record { number = 0; log_name = 0; cells_name = 0 } };
}

/// A type whose values are named. Proofs alone see the blank one.
pub trait Blank {
    ghost blank: { Self };
}

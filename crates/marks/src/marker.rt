// What draws the marks.
ghost use Rattle.std.specs.Prelude.{◌≡◌, length, IfSome};
ghost use Rattle.marks.specs.Rules.{head_of};

use crate::history::{Add, Asks, Blank, Law, Naming, Nothing};
use crate::mark::Mark;
use logbook::{Offer, Seen, Start, Word};
use std::marker::{Model, PhantomData};

/// A history with no value, which has no name yet. Contracts see which history it is.
pub struct Unnamed<E> {
    head: Word<E, u64, Law>,
    seen: Seen<E, u64, Law>,
}

impl<E> Model for Unnamed<E> {
    ghost use Rattle.std.specs.Prelude.{◌≡◌, []};
    ghost use Rattle.logbook.specs.Pages.{Book};
    ghost use Rattle.marks.specs.Rules.{head_of};

    ghost Value = { Book };

    ghost view = { λ u. u.seen.book };

    ghost invariant = { λ u. (u.seen.log ≡ []) × (u.head ≡ head_of u.seen.book) };
}

impl<E> Unnamed<E> {
    pub fn new() -> Unnamed<E> {
        let (seen, mut first, _second) = Seen::open(Start::alone(), 0, 0);
        Unnamed {
            head: Word::tracked(0, &mut first),
            seen,
        }
    }

    /// The history under a name.
    pub fn named<J: Naming>(self) -> Marker<E, J>
        requires { self ≡ J.book }
    {
        let Unnamed { head, seen } = self;
        Marker {
            head,
            seen,
            count: 0,
            of: PhantomData,
        }
    }
}

/// Draws the marks of a history.
#[derive(Drop)]
pub struct Marker<E, J: Naming> {
    head: Word<E, u64, Law>,
    seen: Seen<E, u64, Law>,
    count: u64,
    of: PhantomData<J>,
    ghost head_is: { head ≡ head_of J.book },
    ghost seen_is: { seen.book ≡ J.book },
    ghost counted: { count ≡ length seen.log },
}

const MOST: u64 = 1 << 62;

impl<E: Blank, J: Naming> Marker<E, J> {
    /// A new mark for what is asked of the value. There is none where 2^62 have been drawn.
    pub fn mark<X, M: Asks<X, E>>(&mut self, about: &X) -> Option<Mark<E, J>>
        ensures { IfSome result (λ m. m ≡ M.ask about.now) }
    {
        if self.count >= MOST {
            return None;
        }
        let mut seen = self.seen.again();
        let mut offer: Offer<E, u64, Law, Nothing> = seen.plain::<Nothing, X, Add<M>>(about);
        let mut pen = seen.no_pen();
        let number = self.count;
        let found = self
            .head
            .compare_exchange::<Add<M>, Nothing>(
                number,
                number + 1,
                &mut seen,
                &mut offer,
                &mut pen,
            );
        if found != number {
            return None;
        }
        let mark = Mark {
            number,
            seen: seen.again(),
            of: PhantomData,
        };
        self.seen = seen;
        self.count = number + 1;
        Some(mark)
    }
}

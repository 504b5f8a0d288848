// A mark: a number that names a value of a history.
ghost use Rattle.std.specs.Prelude.{◌≡◌, IsTrue};

use crate::history::{Blank, Law, Naming};
use logbook::Seen;
use std::marker::{Model, PhantomData};

/// A number that names a value. Contracts see it as that value.
#[derive(Drop)]
pub struct Mark<E: Blank, J: Naming> {
    pub(crate) number: u64,
    pub(crate) seen: Seen<E, u64, Law>,
    pub(crate) of: PhantomData<J>,
}

impl<E: Blank, J: Naming> Model for Mark<E, J> {
    ghost use Rattle.std.specs.Prelude.{◌≡◌, ◌<◌, length, get_or};

    ghost Value = { E };

    ghost view = { λ m. get_or m.seen.log m.number E.blank };

    ghost invariant = { λ m. (m.seen.book ≡ J.book) × (m.number < length m.seen.log) };
}

impl<E: Blank, J: Naming> Mark<E, J> {
    /// The same mark once more.
    pub fn again(&self) -> Mark<E, J>
        ensures { result ≡ self.now }
    {
        Mark {
            number: self.number,
            seen: self.seen.again(),
            of: PhantomData,
        }
    }

    /// Whether both are the same mark. Then they name the same value.
    pub fn is(&self, other: &Mark<E, J>) -> bool
        ensures { IsTrue result → self.now ≡ other.now }
    {
        let mut both = self.seen.again();
        both.learn(&other.seen);
        self.number == other.number
    }
}

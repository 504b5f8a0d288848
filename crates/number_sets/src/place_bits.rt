// A set of places in a log, one bit a place, with its least member at hand, as its callers see it.
ghost use Rattle.std.specs.Prelude.{◌≡◌, ℕ, ◌+◌, ◌-◌, ◌%◌, ◌<◌, ◌≤◌, OnOk, OnErr, IfSome, IfNone};
ghost use Rattle.std.specs.FinSet as set;
ghost use Rattle.number_sets.specs.Places.{IsNext, NoneFrom};

use crate::layer::Layer;
use crate::summed::Summed;
use crate::top::Top;
use crate::words::BITS;
use std::alloc::{AllocError, Global};
use std::marker::Model;

/// The first layer has a bit for each place, and each layer above one for each word below. A word of
/// the top stands for 16,777,216 places.
type Tree = Summed<Summed<Summed<Top>>>;

/// A set of places. A call other than `shift_down` looks at one or two words of each layer, and at
/// all words of the top at most; only `grow` takes memory, one bit for each place that there is room
/// for, and little more.
pub struct PlaceBits {
    tree: Tree,
}

impl Drop for PlaceBits {
    fn drop(self) {
        let PlaceBits { tree: _ } = self;
    }
}

impl Model for PlaceBits {
    ghost use Rattle.std.specs.Prelude.{◌*◌, vec_len};
    ghost use Rattle.number_sets.specs.Places.{Places, places_code};
    ghost use Rattle.number_sets.specs.Bits.{set_of};

    ghost Value = { Places };

    ghost coded = { places_code };

    ghost view = { λ a. record { places = set_of a.tree.words.items; room = 64 * vec_len a.tree.words } };
}

impl PlaceBits {
    pub fn new(alloc: Global) -> Self
        ensures { result ≡ record { places = set.empty; room = 0 } }
    {
        PlaceBits {
            tree: Tree::new(alloc),
        }
    }

    /// Makes room for the places below `room`, where there is less.
    pub fn grow(&mut self, room: u64) -> Result<(), AllocError>
        ensures ok { OnOk result (room ≤ self.new.room) }
        ensures kept { self.old.room ≤ self.new.room }
        ensures same { self.new.places ≡ self.old.places }
        ensures err { OnErr result (self.new ≡ self.old) }
    {
        self.tree.grow(room)
    }

    pub fn insert(&mut self, place: u64)
        requires { place < self.old.room }
        ensures { self.new ≡ record self.old { places = set.insert self.old.places place } }
    {
        self.tree.insert(place);
    }

    pub fn remove(&mut self, place: u64)
        ensures { self.new ≡ record self.old { places = set.remove self.old.places place } }
    {
        self.tree.remove(place);
    }

    /// The least place from `from` on.
    pub fn next_from(&self, from: u64) -> Option<u64>
        ensures some { IfSome result (IsNext (set.contains self.now.places) from) }
        ensures none { IfNone result (NoneFrom (set.contains self.now.places) from) }
    {
        self.tree.next_from(from)
    }

    /// The least place.
    pub fn first(&self) -> Option<u64>
        ensures some { IfSome result (IsNext (set.contains self.now.places) 0) }
        ensures none { IfNone result (NoneFrom (set.contains self.now.places) 0) }
    {
        self.next_from(0)
    }

    /// Takes the first places out, so many, and lowers the others and the room by as much. It goes over
    /// all words: a step for each 64 places that there is room for.
    pub fn shift_down(&mut self, count: u64)
        requires { count % 64 ≡ 0 }
        ensures places { (q : ℕ) → set.contains self.new.places q ≡ set.contains self.old.places (count + q) }
        ensures room { self.new.room ≡ self.old.room - count }
    {
        self.tree.lower((count / BITS) as usize);
    }

    /// Takes all places out, and the room too, but keeps the memory.
    pub fn clear(&mut self)
        ensures { self.new ≡ record { places = set.empty; room = 0 } }
    {
        self.tree.clear();
    }
}

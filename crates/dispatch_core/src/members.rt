// An iterator over a view, so that no dispatcher counts places.
use crate::view::{Seen, View};
use std::marker::Model;

/// The members of a view's subscription that are left to see, in the order of joining.
#[derive(Drop)]
pub struct Members<'a, V: View> {
    view: &'a V,
    place: u64,
}

impl<'a, V: View> Model for Members<'a, V> {
    ghost use Rattle.std.specs.Prelude.{List, drop};
    ghost use Rattle.dispatch_core.specs.declared.view.Seen.{Seen};
    ghost use Rattle.dispatch_core.specs.Offers.{seen_members};

    ghost Value = { List Seen };

    ghost view = { λ m. drop m.place (seen_members (V.state m.view.now) (V.subscription m.view.now)) };
}

impl<'a, V: View> Members<'a, V> {
    ghost use Rattle.std.specs.Prelude.{◌≡◌};
    ghost use Rattle.dispatch_core.specs.Offers.{seen_members};

    pub(crate) fn of(view: &'a V) -> Self
        ensures { result ≡ seen_members (V.state view.now) (V.subscription view.now) }
    {
        Members { view, place: 0 }
    }
}

impl<'a, V: View> Iterator for Members<'a, V> {
    ghost use Rattle.std.specs.Iterator.{YieldsFirst, item_count};

    type Item = Seen;

    ghost next_gives = { YieldsFirst (λ rest. rest) };

    ghost remaining = { item_count (λ rest. rest) };

    fn next(&mut self) -> Option<Seen> {
        let seen = self.view.member(self.place)?;
        self.place += 1;
        Some(seen)
    }
}

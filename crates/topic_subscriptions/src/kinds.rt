// A subscription without members takes another kind.
use crate::subscription::Subscription;
use position_core::Kind;

impl Subscription {
    ghost use Rattle.std.specs.Prelude.{◌≡◌};

    /// Takes the kind, before its first member joins.
    pub fn set_kind(&mut self, kind: Kind)
        ensures { self.new ≡ record self.old { kind = kind } }
    {
        self.kind = kind;
    }
}

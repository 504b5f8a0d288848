// Producers' names as keys of the table.
use position_core::ProducerName;
use std::cmp::Ordering;

/// A producer's name, in the order of the bytes.
#[derive(Drop)]
pub(crate) struct NameKey {
    pub(crate) name: ProducerName,
}

impl NameKey {
    ghost use Rattle.std.specs.Prelude.{◌≡◌};
    ghost use Rattle.std.specs.Ordering.{eq_by_cmp};
    ghost use Rattle.position_core.specs.Name.{name_order};

    /// Whether it is this name's.
    pub(crate) fn is_of(&self, name: &ProducerName) -> bool
        ensures { result ≡ eq_by_cmp name_order name.now self.now.name }
    {
        name.as_str().cmp(&self.name.as_str()).is_eq()
    }
}

impl Ord for NameKey {
    ghost use Rattle.std.proofs.Common.{refl};
    ghost use Rattle.std.specs.Cmp.{on_total};
    ghost use Rattle.std.specs.Cmp.Lexicographic.{nat_list_cmp_total};
    ghost use Rattle.dedup_core.specs.Names.{key_order};

    ghost cmp = { key_order };

    ghost total = { on_total (λ key. key.name) nat_list_cmp_total };

    ghost matches_partial_cmp = { λ _ _. refl };

    ghost matches_eq = { λ _ _. refl };

    fn cmp(&self, other: &Self) -> Ordering {
        self.name.as_str().cmp(&other.name.as_str())
    }
}

impl PartialOrd for NameKey {
    ghost use Rattle.std.specs.Cmp.{on_total, partial_order_from_total};
    ghost use Rattle.std.specs.Cmp.Lexicographic.{nat_list_cmp_total};
    ghost use Rattle.std.specs.Ordering.{as_partial_cmp};
    ghost use Rattle.dedup_core.specs.Names.{key_order};

    ghost partial_cmp = { as_partial_cmp key_order };

    ghost laws = { partial_order_from_total (on_total (λ key. key.name) nat_list_cmp_total) };

    fn partial_cmp(&self, other: &Self) -> Option<Ordering> {
        Some(self.cmp(other))
    }
}

impl PartialEq for NameKey {
    ghost use Rattle.std.specs.Cmp.{eq_by_cmp_equiv, on_total, partial_equiv_from_equiv};
    ghost use Rattle.std.specs.Cmp.Lexicographic.{nat_list_cmp_total};
    ghost use Rattle.std.specs.Ordering.{eq_by_cmp};
    ghost use Rattle.dedup_core.specs.Names.{key_order};

    ghost eq = { eq_by_cmp key_order };

    ghost laws = { partial_equiv_from_equiv (eq_by_cmp_equiv (on_total (λ key. key.name) nat_list_cmp_total)) };

    fn eq(&self, other: &Self) -> bool {
        self.cmp(other).is_eq()
    }
}

impl Eq for NameKey {
    ghost use Rattle.std.specs.Cmp.{eq_by_cmp_equiv, on_total};
    ghost use Rattle.std.specs.Cmp.Lexicographic.{nat_list_cmp_total};

    ghost laws = { eq_by_cmp_equiv (on_total (λ key. key.name) nat_list_cmp_total) };
}

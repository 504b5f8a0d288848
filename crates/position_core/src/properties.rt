// The named values that a message carries beside its payload.
ghost use Rattle.std.specs.Prelude.{◌≡◌, ◌↔◌, [], IsTrue, IsSome, IfSome};
ghost use Rattle.std.specs.List.{list_all};
ghost use Rattle.position_core.specs.Properties.{pairs_of, fits, are_properties};

use std::alloc::Global;
use std::collections::BTreeMap;
use std::marker::Model;

/// At most 64 properties: a name has at most 255 bytes and a value at most 1,024. Contracts see them
/// as pairs, in the order of the names' bytes.
#[derive(Debug)]
pub struct Properties {
    values: BTreeMap<String, String>,
}

impl Drop for Properties {
    fn drop(self) {
        let Properties { values: _ } = self;
    }
}

impl Model for Properties {
    ghost use Rattle.std.specs.Prelude.{ℕ, List, IsTrue};
    ghost use Rattle.position_core.specs.Properties.{pairs_of, are_properties};

    ghost Value = { List (List ℕ × List ℕ) };

    ghost view = { λ p. pairs_of p.values };

    ghost invariant = { λ p. IsTrue (are_properties (pairs_of p.values)) };
}

fn fits(name: &str, value: &str) -> bool
    ensures { result ≡ fits (name.now, value.now) }
{
    name.len() <= 255 && value.len() <= 1024
}

fn all_fit(values: &BTreeMap<String, String>) -> bool
    ensures { result ≡ list_all fits (pairs_of values.now) }
{
    values
        .iter()
        .all(|(name, value)| fits(name.as_str(), value.as_str()))
}

fn are_properties(values: &BTreeMap<String, String>) -> bool
    ensures { result ≡ are_properties (pairs_of values.now) }
{
    values.len() <= 64 && all_fit(values)
}

impl Properties {
    /// No properties.
    pub fn none(alloc: Global) -> Self
        ensures { result ≡ [] }
    {
        Properties {
            values: BTreeMap::new(alloc),
        }
    }

    /// None beyond the limits.
    pub fn new(values: BTreeMap<String, String>) -> Option<Self>
        ensures fits { IsSome result ↔ IsTrue (are_properties (pairs_of values)) }
        ensures value { IfSome result (λ p. p ≡ pairs_of values) }
    {
        if are_properties(&values) {
            Some(Properties { values })
        } else {
            None
        }
    }

    pub fn as_map(&self) -> &BTreeMap<String, String>
        ensures value { pairs_of result.now ≡ self.now }
        ensures within { IsTrue (are_properties (pairs_of result.now)) }
    {
        &self.values
    }

    /// Whether two have the same names and values.
    pub fn is(&self, other: &Self) -> bool
        ensures { IsTrue result ↔ self.now ≡ other.now }
    {
        self.values == other.values
    }
}

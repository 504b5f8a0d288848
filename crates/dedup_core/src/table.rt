// What the table keeps of a name.
ghost use Rattle.std.specs.Prelude.{◌≡◌};
ghost use Rattle.dedup_core.specs.Names.{number_at};

use crate::name_key::NameKey;
use position_core::ProducerName;
use std::collections::BTreeMap;

/// The greatest sequence number under a name, and which of all messages that the topic ever had was the last under
/// it.
#[derive(Clone, Copy)]
pub struct LastNumber {
    pub sequence: i64,
    pub index: u64,
}

pub(crate) type Table = BTreeMap<NameKey, LastNumber>;

/// The number of the name, by one key after another.
fn number_among(table: &Table, name: &ProducerName) -> Option<LastNumber>
    ensures { result ≡ number_at table.now.entries name.now }
{
    for (key, number) in table {
        if key.is_of(name) {
            return Some(*number);
        }
    }
    None
}

/// The table asks for a key, which is one more owner of the name. Where there can be no more owners, one
/// key after another is looked at.
pub(crate) fn number_of(table: &Table, name: &ProducerName) -> Option<LastNumber>
    ensures { result ≡ number_at table.now.entries name.now }
{
    match name.clone() {
        Ok(name) => table.get(&NameKey { name }).copied(),
        Err(_) => number_among(table, name),
    }
}

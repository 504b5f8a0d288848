// What tells a duplicate from a new message.
ghost use Rattle.std.specs.Prelude.{◌≡◌, ℕ, [], List, nat_le, false, is_some, OnOk, OnErr};
ghost use Rattle.std.specs.Option.{option_map_or};
ghost use Rattle.std.specs.FinMap as map_of;
ghost use Rattle.position_core.specs.declared.message.Entry.{Entry};
ghost use Rattle.delivery_machine.specs.State.{Author};
ghost use Rattle.delivery_machine.specs.Trimming.{with_author};
ghost use Rattle.delivery_machine.specs.WellFormed.{AreAuthors};
ghost use Rattle.dedup_core.specs.Sequences.{AgreesWith, offered};

use crate::name_key::NameKey;
use crate::table::{self, LastNumber, Table};
use position_core::ProducerName;
use std::alloc::{AllocError, Global};
use std::collections::BTreeMap;
use std::marker::Model;

/// The last sequence number of each producer's name that has messages, also where they are gone from the log, and
/// which of all messages was its last. A call takes the logarithm of the number of names, and only `offer` takes
/// memory. The name is shared, not copied. A name that has as many owners as it can have, some 2^63, is looked for
/// among all.
pub struct Sequences {
    table: Table,
}

impl Drop for Sequences {
    fn drop(self) {
        let Sequences { table: _ } = self;
    }
}

impl Model for Sequences {
    ghost use Rattle.dedup_core.specs.Sequences.{Numbers, coded_numbers};

    ghost Value = { Numbers };

    ghost coded = { coded_numbers };

    ghost use Rattle.dedup_core.specs.Names.{numbers_in};

    ghost view = { λ s. numbers_in s.table.entries };
}

impl Sequences {
    /// Of a topic without messages.
    pub fn new(alloc: Global) -> Self
        ensures empty { result ≡ map_of.empty }
        ensures agrees { AgreesWith [] result }
    {
        Sequences {
            table: BTreeMap::new(alloc),
        }
    }

    /// The last number of the name, or the base where it has none.
    pub fn last(&self, name: &ProducerName, base: i64) -> i64
        ensures { result ≡ option_map_or (λ n. n.sequence) (map_of.get self.now name.now) base }
    {
        match table::number_of(&self.table, name) {
            Some(last) => last.sequence,
            None => base,
        }
    }

    /// Whether the name has messages, here or gone.
    pub fn has(&self, name: &ProducerName) -> bool
        ensures { result ≡ is_some (map_of.get self.now name.now) }
    {
        table::number_of(&self.table, name).is_some()
    }

    /// Whether the last message of the name is the one at the index, of all that the topic ever had, or a later one.
    pub fn reaches(&self, name: &ProducerName, index: u64) -> bool
        ensures { result ≡ option_map_or (λ n. nat_le index n.index) (map_of.get self.now name.now) false }
    {
        match table::number_of(&self.table, name) {
            Some(last) => index <= last.index,
            None => false,
        }
    }

    /// Records the number of a message of the name, which is the one at the index of all that the topic ever had. A
    /// number that is not above the last one leaves that.
    pub fn offer(
        &mut self,
        name: &ProducerName,
        sequence: i64,
        index: u64,
    ) -> Result<(), AllocError>
        ensures ok { OnOk result (self.new ≡ offered name.now sequence index self.old) }
        ensures err { OnErr result (self.new ≡ self.old) }
        ensures agrees { OnOk result ((authors : List Author) (before : ℕ) (e : Entry) → AreAuthors before authors → AgreesWith authors self.old
            → e.producer ≡ name.now → e.sequence ≡ sequence → AgreesWith (with_author index e authors) self.new) }
    {
        let key = NameKey {
            name: name.clone()?,
        };
        let sequence = self.last(name, sequence).max(sequence);
        self.table.insert(key, LastNumber { sequence, index })?;
        Ok(())
    }

    /// The name is as new.
    pub fn forget(&mut self, name: ProducerName)
        ensures { self.new ≡ map_of.remove self.old name }
    {
        self.table.remove(&NameKey { name });
    }
}

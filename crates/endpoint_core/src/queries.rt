// The query of a target: its parameters, by name.
ghost use Rattle.std.specs.Prelude.{◌≡◌, map, string_bytes, IfOk};
ghost use Rattle.form_urlencoded.specs.Form.{plus_to_space};
ghost use Rattle.endpoint_core.specs.Faults.{Gives, map_ok};
ghost use Rattle.endpoint_core.specs.Queries.{word_of};

use crate::faults::Cause;
use crate::fields::Field;
use crate::texts::text_of;
use form_urlencoded::raw_pairs;
use std::alloc::{AllocError, Global};
use std::marker::Model;

/// The bytes with a space for each `+`.
fn spaced(alloc: Global, bytes: &[u8]) -> Result<Vec<u8>, AllocError>
    ensures { IfOk result (λ v. v.items ≡ map plus_to_space bytes.now) }
{
    bytes
        .iter()
        .map(|byte| if *byte == b'+' { b' ' } else { *byte })
        .collect(alloc)
}

/// The text that a name or a value stands for.
fn word_of(alloc: Global, bytes: &[u8]) -> Result<String, Cause>
    ensures { Gives (map_ok string_bytes result) (word_of bytes.now) }
{
    let bytes = spaced(alloc, bytes)?;
    match text_of(alloc, &bytes)? {
        Some(text) => Ok(String::from_str(alloc, text.as_str())?),
        None => Err(Cause::BadParameter(Field::Query)),
    }
}

/// The parameters of a query, decoded. Contracts see them as a list of names and values.
#[derive(Drop)]
pub struct Query {
    parameters: Vec<(String, String)>,
}

impl Model for Query {
    ghost use Rattle.std.specs.Prelude.{ℕ, List, map, string_bytes};

    ghost Value = { List (List ℕ × List ℕ) };

    ghost view = { λ q. map (λ p. (string_bytes p.0, string_bytes p.1)) q.parameters.items };
}

impl Query {
    ghost use Rattle.std.specs.Prelude.{◌≡◌, [], ◌∷◌, ◌++◌, OnOk, IfErr, string_bytes};
    ghost use Rattle.std.specs.Option.{option_copied};
    ghost use Rattle.endpoint_core.specs.Faults.{Gives};
    ghost use Rattle.endpoint_core.specs.Queries.{parameters_of, value_at};
    ghost use Rattle.endpoint_core.specs.declared.faults.Cause.TheVariants.{NoMemory};

    fn empty(alloc: Global) -> Self
        ensures { result ≡ [] }
    {
        Query {
            parameters: Vec::new(alloc),
        }
    }

    fn add(&mut self, name: String, value: String) -> Result<(), Cause>
        ensures ok { OnOk result (self.new ≡ self.old ++ (string_bytes name, string_bytes value) ∷ []) }
        ensures err { IfErr result (λ cause. cause ≡ NoMemory) }
    {
        match self.parameters.push((name, value)) {
            Ok(()) => Ok(()),
            Err(_) => Err(Cause::NoMemory),
        }
    }

    /// Reads a query, whose every part is to be UTF-8 after decoding.
    pub fn read(alloc: Global, text: &str) -> Result<Self, Cause>
        ensures { Gives result (parameters_of text.now) }
    {
        let mut query = Query::empty(alloc);
        for (name, value) in raw_pairs(text.as_bytes()) {
            let name = word_of(alloc, name)?;
            let value = word_of(alloc, value)?;
            query.add(name, value)?;
        }
        Ok(query)
    }

    /// The value of the first parameter of the name.
    pub fn value_at(&self, name: &str) -> Option<&str>
        ensures { option_copied result ≡ value_at name.now self.now }
    {
        for parameter in &self.parameters {
            if parameter.0.as_str() == name {
                return Some(parameter.1.as_str());
            }
        }
        None
    }
}

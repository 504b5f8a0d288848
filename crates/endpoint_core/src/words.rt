// The words that a parameter may be.
ghost use Rattle.std.specs.Prelude.{◌≡◌, ok_or};
ghost use Rattle.endpoint_core.specs.Words.{initial_of, is_producer_name, kind_of, mode_of, producer_name_of, truth_of};
ghost use Rattle.endpoint_core.specs.declared.faults.Cause.TheVariants.{BadParameter};
ghost use Rattle.endpoint_core.specs.declared.fields.Field.TheVariants.{ProducerName};
ghost use Rattle.endpoint_core.specs.Faults.{Gives};

use crate::faults::Cause;
use crate::fields::Field;
use crate::modes::Mode;
use delivery_machine::Initial;
use position_core::{Kind, ProducerName};
use std::alloc::Global;
use std::sync::ArcStr;

pub fn truth_of(text: &str) -> Option<bool>
    ensures { result ≡ truth_of text.now }
{
    if text.eq_ignore_ascii_case("true") {
        return Some(true);
    }
    if text.eq_ignore_ascii_case("false") {
        return Some(false);
    }
    None
}

pub fn kind_of(text: &str) -> Option<Kind>
    ensures { result ≡ kind_of text.now }
{
    if text == "Exclusive" {
        return Some(Kind::Exclusive);
    }
    if text == "Failover" {
        return Some(Kind::Failover);
    }
    if text == "Shared" {
        return Some(Kind::Shared);
    }
    if text == "Key_Shared" {
        return Some(Kind::KeyShared);
    }
    None
}

pub fn initial_of(text: &str) -> Option<Initial>
    ensures { result ≡ initial_of text.now }
{
    if text == "Earliest" {
        return Some(Initial::Earliest);
    }
    if text == "Latest" {
        return Some(Initial::Latest);
    }
    None
}

pub fn mode_of(text: &str) -> Option<Mode>
    ensures { result ≡ mode_of text.now }
{
    if text == "Durable" {
        return Some(Mode::Durable);
    }
    if text == "NonDurable" {
        return Some(Mode::NonDurable);
    }
    None
}

/// The broker's own producers have names that begin with `dlq/`.
fn is_producer_name(text: &str) -> bool
    ensures { result ≡ is_producer_name text.now }
{
    !text.is_empty() && text.len() <= 255 && !text.starts_with("dlq/")
}

/// The name of a client's producer.
pub fn producer_name_of(alloc: Global, text: &str) -> Result<ProducerName, Cause>
    ensures { Gives result (ok_or (producer_name_of text.now) (BadParameter ProducerName)) }
{
    if !is_producer_name(text) {
        return Err(Cause::BadParameter(Field::ProducerName));
    }
    match ProducerName::new(ArcStr::from_str(alloc, text)?) {
        Some(name) => Ok(name),
        None => Err(Cause::BadParameter(Field::ProducerName)),
    }
}

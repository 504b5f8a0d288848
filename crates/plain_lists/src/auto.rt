// The names that the topic makes for producers without one.
ghost use Rattle.std.specs.Prelude.{◌≡◌, IfOk};
ghost use Rattle.std.specs.List.{position};
ghost use Rattle.std.specs.Str.{bytes_eq};
ghost use Rattle.delivery_machine.specs.Producing.{auto_name};
ghost use Rattle.plain_lists.specs.Auto.{IsLeastFreeIn};

use position_core::ProducerName;
use std::alloc::{AllocError, Global};
use std::sync::ArcStr;

/// The name that the topic makes of the number.
pub fn auto_name(alloc: Global, number: u64) -> Result<ProducerName, AllocError>
    ensures { IfOk result (λ name. name ≡ auto_name number) }
{
    let text = ArcStr::from_string(format!(in alloc; "auto-{number}")?)?;
    match ProducerName::new(text) {
        Some(name) => Ok(name),
        None => unreachable!(),
    }
}

fn place_of(names: &[ProducerName], name: &ProducerName) -> Option<usize>
    ensures { result ≡ position (λ other. bytes_eq other name.now) names.now }
{
    names.iter().position(|other| other.is(name))
}

/// The least number whose name is not among the names.
pub fn least_free(alloc: Global, mut names: Vec<ProducerName>) -> Result<u64, AllocError>
    ensures { IfOk result (IsLeastFreeIn names.items) }
{
    let mut number = 0;
    while let Some(place) = place_of(&names, &auto_name(alloc, number)?) {
        names.remove(place);
        number += 1;
    }
    Ok(number)
}

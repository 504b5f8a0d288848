// What a consumer's query says of the hashes that it takes.
ghost use Rattle.endpoint_core.specs.Faults.{Gives};
ghost use Rattle.endpoint_core.specs.Ranges.{ranges_in, ranges_said};

use crate::faults::Cause;
use crate::fields::Field;
use crate::queries::Query;
use position_core::{Kind, Ranges};
use std::alloc::Global;
use value_texts::{LeadingZeros, read_ranges};

fn ranges_said(alloc: Global, query: &Query) -> Result<Option<Ranges>, Cause>
    ensures { Gives result (ranges_said query.now) }
{
    let Some(text) = query.value_at(Field::KeySharedRanges.name()) else {
        return Ok(None);
    };
    match read_ranges(alloc, LeadingZeros::Allowed, text.as_bytes()) {
        Ok(Some(ranges)) => Ok(Some(ranges)),
        Ok(None) => Err(Cause::BadParameter(Field::KeySharedRanges)),
        Err(_) => Err(Cause::NoMemory),
    }
}

/// The hashes that the consumer takes, where it says so. Only in Key_Shared it is asked.
pub fn ranges_in(alloc: Global, kind: Kind, query: &Query) -> Result<Option<Ranges>, Cause>
    ensures { Gives result (ranges_in kind query.now) }
{
    if kind.is(Kind::KeyShared) {
        return ranges_said(alloc, query);
    }
    Ok(None)
}

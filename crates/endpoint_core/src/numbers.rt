// The numbers of a query: decimal digits, with any number of leading zeros.
ghost use Rattle.std.specs.Prelude.{◌≡◌, ◌≤◌, ◌^◌, Some, IfSome, IfNone};
ghost use Rattle.std.specs.List.{list_all};
ghost use Rattle.std.specs.Char.{is_ascii_digit};
ghost use Rattle.endpoint_core.specs.Numbers.{base_of, negative_base, number_of, number_up_to, positive_base};
ghost use Rattle.endpoint_core.specs.Queries.{said};

use crate::faults::Cause;
use crate::fields::Field;
use crate::paths::after;
use crate::queries::Query;
use position_core::{Base, Bounded};

fn are_digits(text: &str) -> bool
    ensures { result ≡ list_all is_ascii_digit text.now }
{
    text.as_bytes().iter().all(|byte| byte.is_ascii_digit())
}

/// None where the text is no number, and where its number has more than 64 bits.
fn number_of(text: &str) -> Option<u64>
    ensures some { IfSome result (λ n. number_of text.now ≡ Some n) }
    ensures none { IfNone result (IfSome (number_of text.now) (λ n. 2 ^ 64 ≤ n)) }
{
    if !are_digits(text) {
        return None;
    }
    match text.parse() {
        Ok(number) => Some(number),
        Err(_) => None,
    }
}

pub fn number_up_to<const MOST: u32>(text: &str) -> Option<Bounded<0, MOST>>
    ensures { result ≡ number_up_to MOST text.now }
{
    let number = number_of(text)?;
    if number > 4_294_967_295 {
        return None;
    }
    Bounded::new(number as u32)
}

/// The number that a parameter says, or the default where it is absent.
pub fn number_said<const MOST: u32>(
    query: &Query,
    field: Field,
    default: u32,
) -> Result<Bounded<0, MOST>, Cause>
    requires { default ≤ MOST }
    ensures { result ≡ said field default (number_up_to MOST) query.now }
{
    let number = match query.value_at(field.name()) {
        Some(text) => number_up_to(text),
        None => Bounded::new(default),
    };
    number.ok_or(Cause::BadParameter(field))
}

fn positive_base(number: u64) -> Option<Base>
    ensures { result ≡ positive_base number }
{
    if number > 4_611_686_018_427_387_904 {
        return None;
    }
    Base::new(number as i64)
}

fn negative_base(number: u64) -> Option<Base>
    ensures { result ≡ negative_base number }
{
    match number {
        0 => Base::new(0),
        1 => Base::new(-1),
        _ => None,
    }
}

/// The sequence number that a producer begins after.
pub fn base_of(text: &str) -> Option<Base>
    ensures { result ≡ base_of text.now }
{
    match after("-", text) {
        Some(digits) => negative_base(number_of(digits)?),
        None => positive_base(number_of(text)?),
    }
}

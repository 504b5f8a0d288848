// Whole numbers in decimal.
ghost use Rattle.std.specs.Prelude.{◌≡◌, ◌++◌, IfOk, OnOk, string_bytes};
ghost use Rattle.std.specs.Fmt.{decimal, signed_decimal};

use std::alloc::{AllocError, Global};

/// Appends the number's decimal text.
pub fn push_decimal(out: &mut String, number: u64) -> Result<(), AllocError>
    ensures { OnOk result (string_bytes out.new ≡ string_bytes out.old ++ decimal number) }
{
    let mut buffer = itoa::Buffer::new();
    out.push_str(buffer.format(number))
}

/// The number's decimal text.
pub(crate) fn decimal_text(alloc: Global, number: u64) -> Result<String, AllocError>
    ensures { IfOk result (λ text. string_bytes text ≡ decimal number) }
{
    let mut buffer = itoa::Buffer::new();
    String::from_str(alloc, buffer.format(number))
}

/// The number's decimal text, with a `-` before it where it is negative.
pub(crate) fn signed_text(alloc: Global, number: i64) -> Result<String, AllocError>
    ensures { IfOk result (λ text. string_bytes text ≡ signed_decimal number) }
{
    let mut buffer = itoa::Buffer::new();
    String::from_str(alloc, buffer.format(number))
}

// Numbers by their decimal texts.
ghost use Rattle.std.specs.Prelude.{◌+◌, ◌-◌, ◌*◌, ◌^◌, ◌<◌, ◌≤◌};
ghost use Rattle.std.specs.Option.{SomeIff};
ghost use Rattle.value_texts.specs.Decimals.{Finds, IsNumber};

fn digit(byte: u8) -> Option<u64>
    ensures { SomeIff result ((48 ≤ byte) × (byte ≤ 57)) (byte - 48) }
{
    if byte >= b'0' && byte <= b'9' {
        Some(u64::from(byte - b'0'))
    } else {
        None
    }
}

/// The number with one more digit at its end.
fn followed(high: u64, digit: u64) -> Option<u64>
    ensures { SomeIff result (10 * high + digit < 2 ^ 64) (10 * high + digit) }
{
    high.checked_mul(10)?.checked_add(digit)
}

fn digits(text: &[u8]) -> Option<u64>
    ensures { Finds (IsNumber text.now) result }
{
    let Some((last, front)) = text.split_last() else {
        return None;
    };
    let Some(last) = digit(*last) else {
        return None;
    };
    if front.is_empty() {
        return Some(last);
    }
    let Some(high) = digits(front) else {
        return None;
    };
    if high == 0 {
        return None;
    }
    followed(high, last)
}

/// The number whose decimal text it is, without sign and leading zeros.
pub fn decimal_in(text: &[u8]) -> Option<u64>
    ensures { Finds (IsNumber text.now) result }
{
    if text.len() > 20 { None } else { digits(text) }
}

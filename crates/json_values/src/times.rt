// Moments, written straight into a text.
ghost use Rattle.std.specs.Prelude.{◌≡◌, ◌+◌, ◌<◌, ◌≤◌, [], ◌∷◌, ◌++◌, ◌≤ℤ◌, OnOk, pos, string_bytes, List, ℕ};
ghost use Rattle.jiff_core.specs.Date.{epoch_day};
ghost use Rattle.jiff_fmt.specs.Text.{date_text, pad2, pad4};
ghost use Rattle.json_values.specs.Times.{IsTimeText, clock_text, hour_text, pad3, second_text, time_text};

use jiff::ToSpan;
use jiff::civil::{Date, date};
use position_core::Moment;
use std::alloc::AllocError;

const MILLIS_A_DAY: u64 = 86_400_000;

fn push_digit(out: &mut String, digit: u64) -> Result<(), AllocError>
    requires { digit < 10 }
    ensures { OnOk result (string_bytes out.new ≡ string_bytes out.old ++ (48 + digit) ∷ []) }
{
    out.push((b'0' + digit as u8) as char)
}

fn push_two(out: &mut String, number: u64) -> Result<(), AllocError>
    requires { number < 100 }
    ensures { OnOk result (string_bytes out.new ≡ string_bytes out.old ++ pad2 number) }
{
    push_digit(out, number / 10)?;
    push_digit(out, number % 10)
}

fn push_three(out: &mut String, number: u64) -> Result<(), AllocError>
    requires { number < 1000 }
    ensures { OnOk result (string_bytes out.new ≡ string_bytes out.old ++ pad3 number) }
{
    push_digit(out, number / 100)?;
    push_two(out, number % 100)
}

fn push_four(out: &mut String, number: u64) -> Result<(), AllocError>
    requires { number < 10000 }
    ensures { OnOk result (string_bytes out.new ≡ string_bytes out.old ++ pad4 number) }
{
    push_two(out, number / 100)?;
    push_two(out, number % 100)
}

fn push_hour(out: &mut String, millis: u64) -> Result<(), AllocError>
    requires { millis < 86400000 }
    ensures { OnOk result (string_bytes out.new ≡ string_bytes out.old ++ hour_text millis) }
{
    push_two(out, millis / 3_600_000)?;
    out.push_str(":")?;
    push_two(out, millis / 60_000 % 60)
}

fn push_second(out: &mut String, millis: u64) -> Result<(), AllocError>
    ensures { OnOk result (string_bytes out.new ≡ string_bytes out.old ++ second_text millis) }
{
    push_two(out, millis / 1000 % 60)?;
    out.push_str(".")?;
    push_three(out, millis % 1000)
}

fn push_clock(out: &mut String, millis: u64) -> Result<(), AllocError>
    requires { millis < 86400000 }
    ensures { OnOk result (string_bytes out.new ≡ string_bytes out.old ++ clock_text millis) }
{
    push_hour(out, millis)?;
    out.push_str(":")?;
    push_second(out, millis)?;
    Ok(())
}

/// The civil date so many days after 1970-01-01.
fn date_of(days: u64) -> Date
    requires { days ≤ 2932896 }
    ensures day { epoch_day result ≡ pos days }
    ensures year { pos 0 ≤ℤ result.year }
{
    date(1970, 1, 1).saturating_add((days as i64).days())
}

fn push_date(out: &mut String, date: Date) -> Result<(), AllocError>
    requires { pos 0 ≤ℤ date.year }
    ensures { OnOk result (string_bytes out.new ≡ string_bytes out.old ++ date_text date) }
{
    push_four(out, date.year() as u64)?;
    out.push_str("-")?;
    push_two(out, date.month() as u64)?;
    out.push_str("-")?;
    push_two(out, date.day() as u64)
}

fn push_date_and_clock(out: &mut String, date: Date, millis: u64) -> Result<(), AllocError>
    requires year { pos 0 ≤ℤ date.year }
    requires within { millis < 86400000 }
    ensures { OnOk result (string_bytes out.new ≡ string_bytes out.old ++ time_text date millis) }
{
    push_date(out, date)?;
    out.push_str("T")?;
    push_clock(out, millis)?;
    out.push_str("Z")?;
    Ok(())
}

/// Appends the moment in UTC.
pub fn push_time(out: &mut String, moment: Moment) -> Result<(), AllocError>
    ensures { OnOk result ((text : List ℕ) × IsTimeText moment text × (string_bytes out.new ≡ string_bytes out.old ++ text)) }
{
    let millis = moment.millis();
    let date = date_of(millis / MILLIS_A_DAY);
    push_date_and_clock(out, date, millis % MILLIS_A_DAY)?;
    Ok(())
}

// Words that are numbers: decimal, without sign and leading zeros.
ghost use Rattle.replay_lines.specs.Reads.{ReadsAtOnce};
ghost use Rattle.value_texts.specs.Decimals.{IsNumber};
ghost use Rattle.replay_lines.specs.Numbers.{IsSequence, IsBase, IsMoment, IsBetween};

use crate::words::{Unread, is_none};
use position_core::{Base, Bounded, Moment};
use value_texts::decimal_in;

pub fn read_number(word: &[u8]) -> Result<u64, Unread>
    ensures { ReadsAtOnce (IsNumber word.now) result }
{
    decimal_in(word).ok_or(Unread::BadLine)
}

#[tactic(auto, unfolding(crate::specs::Numbers::IsSequence))]
pub fn read_sequence(word: &[u8]) -> Result<i64, Unread>
    ensures { ReadsAtOnce (IsSequence word.now) result }
{
    let number = read_number(word)?;
    if number > 9_223_372_036_854_775_807 {
        return Err(Unread::BadLine);
    }
    Ok(number as i64)
}

#[tactic(auto, unfolding(crate::specs::Numbers::IsBase))]
pub fn read_base(word: &[u8]) -> Result<Base, Unread>
    ensures { ReadsAtOnce (IsBase word.now) result }
{
    if is_none(word) {
        return Base::new(-1).ok_or(Unread::BadLine);
    }
    let number = read_number(word)?;
    if number > 4_611_686_018_427_387_904 {
        return Err(Unread::BadLine);
    }
    Base::new(number as i64).ok_or(Unread::BadLine)
}

pub fn read_moment(word: &[u8]) -> Result<Moment, Unread>
    ensures { ReadsAtOnce (IsMoment word.now) result }
{
    match Moment::new(read_number(word)?) {
        Some(moment) => Ok(moment),
        None => Err(Unread::BadLine),
    }
}

/// A number within two limits. Takes no memory.
pub fn read_bounded<const LEAST: u32, const MOST: u32>(
    word: &[u8],
) -> Result<Bounded<LEAST, MOST>, Unread>
    ensures { ReadsAtOnce (IsBetween LEAST MOST word.now) result }
{
    let number = read_number(word)?;
    if number > 4_294_967_295 {
        return Err(Unread::BadLine);
    }
    match Bounded::new(number as u32) {
        Some(bounded) => Ok(bounded),
        None => Err(Unread::BadLine),
    }
}

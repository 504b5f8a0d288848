// Numbers as bits of words: a number's word is the one of index number / 64.
ghost use Rattle.std.specs.Prelude.{◌≡◌, ◌==◌, ℕ, ◌-◌, ◌/◌, ◌%◌, ◌*◌, ◌^◌, ◌<◌, ◌≤◌, Bool, true, false, not, ◌&&◌, ◌||◌, length, IfSome, IfNone};
ghost use Rattle.std.specs.Prelude.{drop, vec_len, OnOk, OnErr};
ghost use Rattle.number_sets.specs.Bits.{has, is_used, IsNextInWord, NoneInWord};
ghost use Rattle.number_sets.specs.Places.{IsNext, NoneFrom};

use std::alloc::AllocError;

/// How many bits a word has.
pub(crate) const BITS: u64 = 64;

/// How many words have the bits of the numbers below `room`.
pub(crate) fn words_for(room: u64) -> usize
    ensures enough { room ≤ 64 * result }
    ensures few { result ≤ 2 ^ 58 }
{
    room.div_ceil(BITS) as usize
}

/// Makes the words so many, where they are fewer.
pub(crate) fn widen(words: &mut Vec<u64>, count: usize) -> Result<(), AllocError>
    ensures ok { OnOk result (count ≤ vec_len words.new) }
    ensures err { OnErr result (vec_len words.new ≡ vec_len words.old) }
    ensures kept { vec_len words.old ≤ vec_len words.new }
    ensures most { (most : ℕ) → count ≤ most → vec_len words.old ≤ most → vec_len words.new ≤ most }
    ensures has { (i : ℕ) → has words.new.items i ≡ has words.old.items i }
    ensures used { (w : ℕ) → is_used words.new.items w ≡ is_used words.old.items w }
{
    if count > words.len() {
        words.resize(count, 0)?;
    }
    Ok(())
}

/// Takes the first words out, so many, where there are as many.
pub(crate) fn remove_front(words: &mut Vec<u64>, count: usize)
    ensures items { words.new.items ≡ drop count words.old.items }
    ensures len { vec_len words.new ≡ vec_len words.old - count }
{
    let len = words.len();
    let gone = count.min(len);
    words.as_mut_slice().copy_within(gone..len, 0);
    words.truncate(len - gone);
}

/// The first word from `from` on that is not empty.
pub(crate) fn next_used(words: &[u64], from: u64) -> Option<u64>
    ensures some { IfSome result (IsNext (is_used words.now) from) }
    ensures none { IfNone result (NoneFrom (is_used words.now) from) }
{
    for index in from as usize..words.len() {
        if words[index] != 0 {
            return Some(index as u64);
        }
    }
    None
}

/// Puts the number in, and says whether its word was empty.
pub(crate) fn put(words: &mut [u64], number: u64) -> bool
    requires { number / 64 < length words.old }
    ensures has { (i : ℕ) → has words.new i ≡ (i == number || has words.old i) }
    ensures used { (w : ℕ) → is_used words.new w ≡ (w == number / 64 || is_used words.old w) }
    ensures was { result ≡ not (is_used words.old (number / 64)) }
{
    let index = (number / BITS) as usize;
    let word = words[index];
    words[index] = word | 1 << (number % BITS);
    word == 0
}

/// Takes the number out, and says whether its word is empty now.
pub(crate) fn take_out(words: &mut [u64], number: u64) -> bool
    ensures has { (i : ℕ) → has words.new i ≡ (not (i == number) && has words.old i) }
    ensures used { (w : ℕ) → is_used words.new w ≡ (not (result && w == number / 64) && is_used words.old w) }
{
    let index = (number / BITS) as usize;
    if index >= words.len() {
        return false;
    }
    let word = words[index] & !(1 << (number % BITS));
    words[index] = word;
    word == 0
}

/// Takes all numbers out.
pub(crate) fn wipe(words: &mut [u64])
    ensures len { length words.new ≡ length words.old }
    ensures has { (i : ℕ) → has words.new i ≡ false }
    ensures used { (w : ℕ) → is_used words.new w ≡ false }
{
    words.fill(0);
}

/// The least number of the set from `from` on, among those of its word.
pub(crate) fn next_in_word(words: &[u64], from: u64) -> Option<u64>
    ensures some { IfSome result (IsNextInWord words.now from) }
    ensures none { IfNone result (NoneInWord words.now from) }
    ensures unused { IfNone result (from % 64 ≡ 0 → is_used words.now (from / 64) ≡ false) }
{
    let index = (from / BITS) as usize;
    if index >= words.len() {
        return None;
    }
    let rest = words[index] >> (from % BITS);
    if rest == 0 {
        None
    } else {
        Some(from + u64::from(rest.trailing_zeros()))
    }
}

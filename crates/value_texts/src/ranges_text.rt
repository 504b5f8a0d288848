// The text of ranges, as `0-999,2000-65535`.
ghost use Rattle.std.specs.Prelude.{◌≡◌, IfOk, option_map, position};
ghost use Rattle.value_texts.specs.RangesText.{hash_in, is_dash, plain_hash, range_by, range_in, ranges_given, ranges_of, without_zeros};

use crate::decimals::decimal_in;
use position_core::{HashRange, Ranges};
use std::alloc::{AllocError, Global};

/// Whether the numbers of a text may begin with zeros that count for nothing.
#[derive(Clone, Copy, Debug, PartialEq, Eq)]
pub enum LeadingZeros {
    Allowed,
    Refused,
}

fn without_zeros(text: &[u8]) -> &[u8]
    ensures { result.now ≡ without_zeros text.now }
{
    let mut left = text;
    while left.len() > 1 && left[0] == b'0' {
        left = &left[1..];
    }
    left
}

fn plain_hash(text: &[u8]) -> Option<u32>
    ensures { result ≡ plain_hash text.now }
{
    let Some(number) = decimal_in(text) else {
        return None;
    };
    if number > 65_535 {
        return None;
    }
    Some(number as u32)
}

fn hash_in(zeros: LeadingZeros, text: &[u8]) -> Option<u32>
    ensures { result ≡ hash_in zeros text.now }
{
    match zeros {
        LeadingZeros::Allowed => plain_hash(without_zeros(text)),
        LeadingZeros::Refused => plain_hash(text),
    }
}

fn range_by(first: Option<u32>, last: Option<u32>) -> Option<HashRange>
    ensures { result ≡ range_by first last }
{
    Some(HashRange {
        first: first?,
        last: last?,
    })
}

fn dash_in(text: &[u8]) -> Option<usize>
    ensures { result ≡ position is_dash text.now }
{
    text.iter().position(|byte| *byte == b'-')
}

fn range_in(zeros: LeadingZeros, text: &[u8]) -> Option<HashRange>
    ensures { result ≡ range_in zeros text.now }
{
    let Some(dash) = dash_in(text) else {
        return None;
    };
    range_by(
        hash_in(zeros, &text[..dash]),
        hash_in(zeros, &text[dash + 1..]),
    )
}

fn ranges_given(
    alloc: Global,
    zeros: LeadingZeros,
    text: &[u8],
) -> Result<Option<Vec<HashRange>>, AllocError>
    ensures { IfOk result (λ found. option_map (λ given. given.items) found ≡ ranges_given zeros text.now) }
{
    let mut given = Vec::new(alloc);
    for part in text.split(|byte| *byte == b',') {
        match range_in(zeros, part) {
            Some(range) => given.push(range)?,
            None => return Ok(None),
        }
    }
    Ok(Some(given))
}

/// The ranges of which it is the text, in whatever order they stand there.
pub fn read_ranges(
    alloc: Global,
    zeros: LeadingZeros,
    text: &[u8],
) -> Result<Option<Ranges>, AllocError>
    ensures { IfOk result (λ found. found ≡ ranges_of zeros text.now) }
{
    match ranges_given(alloc, zeros, text)? {
        Some(given) => Ok(Ranges::new(given)),
        None => Ok(None),
    }
}

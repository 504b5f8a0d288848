// Which message of a log has a position.
ghost use Rattle.std.specs.Prelude.{◌≡◌, map, Some, IfSome};
ghost use Rattle.std.specs.List.Sorted.{IsStrictlySortedBy};
ghost use Rattle.position_core.specs.Position.{position_cmp};
ghost use Rattle.log_pieces.specs.Pieces.{index_of, joined};

use crate::pieces::Pieces;
use position_core::Position;
use std::cmp::Ordering;

/// The index, where the message there has the position.
fn at_index(pieces: &Pieces, at: Position, index: usize) -> Option<usize>
    requires { IsStrictlySortedBy position_cmp (map (λ e. e.position) (joined pieces.now)) }
    ensures { IfSome result (λ found. Some found ≡ index_of at (joined pieces.now)) }
{
    match pieces.get(index) {
        Some(message) => match message.position().cmp(&at) {
            Ordering::Equal => Some(index),
            _ => None,
        },
        None => None,
    }
}

/// By halving what is left of the log.
pub(crate) fn by_halving(pieces: &Pieces, at: Position) -> Option<usize>
    requires { IsStrictlySortedBy position_cmp (map (λ e. e.position) (joined pieces.now)) }
    ensures { result ≡ index_of at (joined pieces.now) }
{
    let mut low = 0;
    let mut high = pieces.count();
    while low < high {
        let middle = low + (high - low) / 2;
        let Some(message) = pieces.get(middle) else {
            return None;
        };
        match message.position().cmp(&at) {
            Ordering::Less => low = middle + 1,
            Ordering::Equal => return Some(middle),
            Ordering::Greater => high = middle,
        }
    }
    None
}

pub(crate) fn index_near(pieces: &Pieces, at: Position, likely: usize) -> Option<usize>
    requires { IsStrictlySortedBy position_cmp (map (λ e. e.position) (joined pieces.now)) }
    ensures { result ≡ index_of at (joined pieces.now) }
{
    match at_index(pieces, at, likely) {
        Some(index) => Some(index),
        None => by_halving(pieces, at),
    }
}

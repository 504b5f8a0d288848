// Tables by position, kept as lists of entries.
ghost use Rattle.std.specs.Prelude.{◌≡◌, ◌≤◌, not, vec_capacity, vec_len};
ghost use Rattle.std.specs.List.{filter, find, position};
ghost use Rattle.std.specs.Option.{option_map};
ghost use Rattle.position_core.specs.Position.{same_position};
ghost use Rattle.delivery_machine.specs.Acknowledging.{is_one_of};

use delivery_machine::is_one_of;
use position_core::Position;

/// What the first entry of the position has.
pub(crate) fn find_at<V: Copy>(entries: &[(Position, V)], position: Position) -> Option<V>
    ensures { result ≡ option_map (λ e. e.1) (find (λ e. same_position position e.0) entries.now) }
{
    entries
        .iter()
        .find(|entry| position.is(entry.0))
        .map(|entry| entry.1)
}

/// Where the first entry of the position stands.
pub(crate) fn place_at<V: Copy>(entries: &[(Position, V)], key: Position) -> Option<usize>
    ensures { result ≡ position (λ e. same_position key e.0) entries.now }
{
    entries.iter().position(|entry| key.is(entry.0))
}

/// Leaves out the entries of the positions.
pub(crate) fn leave_out<V: Copy>(entries: &mut Vec<(Position, V)>, positions: &[Position])
    ensures room { vec_capacity entries.new ≡ vec_capacity entries.old }
    ensures fewer { vec_len entries.new ≤ vec_len entries.old }
    ensures left { entries.new.items ≡ filter (λ e. not (is_one_of positions.now e.0)) entries.old.items }
{
    entries.retain(|entry| !is_one_of(positions, entry.0));
}

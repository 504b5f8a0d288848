// What is kept of the line of members.
ghost use Rattle.std.specs.Prelude.{◌≡◌, ◌+◌, ◌<◌, ◌≤◌, [], ◌∷◌, ◌++◌, length};
ghost use Rattle.dispatch_core.specs.Log.{line_of};
ghost use Rattle.dispatch_single.specs.InOrder.{without, NumbersDiffer, TellsLine};

use crate::active::{Active, once_left, with_next};
use dispatch_core::View;
use position_core::ConsumerNumber;

/// How many members are in line, and who of them is active. It is told who joins and leaves, and
/// sees the line as it then is. The line is gone over only where the active member leaves.
#[derive(Clone, Copy)]
pub(crate) struct Line {
    many: u64,
    pub(crate) active: Option<Active>,
}

impl Line {
    pub(crate) fn new() -> Self
        ensures { TellsLine result [] }
    {
        Line {
            many: 0,
            active: None,
        }
    }

    /// A member joined, as the last in line.
    pub(crate) fn join<V: View>(&mut self, view: &V)
        ensures { (line : _) (member : _) → line_of (V.state view.now) (V.subscription view.now) ≡ line ++ member ∷ [] → NumbersDiffer (line ++ member ∷ []) → length line < 64 → TellsLine self.old line → TellsLine self.new (line ++ member ∷ []) }
    {
        self.active = with_next(view, self.active, self.many);
        self.many = self.many.saturating_add(1);
    }

    /// The consumer left, if it was in line.
    pub(crate) fn leave<V: View>(&mut self, view: &V, consumer: ConsumerNumber)
        ensures { (line : _) → line_of (V.state view.now) (V.subscription view.now) ≡ without consumer line → TellsLine self.old line → TellsLine self.new (without consumer line) }
    {
        self.active = once_left(view, self.active, consumer);
        self.many = still_in_line(view, self.many);
    }
}

/// How many are in line, where so many were and at most one left.
fn still_in_line<V: View>(view: &V, many: u64) -> u64
    ensures { let line = line_of (V.state view.now) (V.subscription view.now) in length line ≤ many → many ≤ length line + 1 → result ≡ length line }
{
    let fewer = many.saturating_sub(1);
    match view.member(fewer) {
        Some(_) => many,
        None => fewer,
    }
}

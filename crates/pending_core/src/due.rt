// The order in which positions fall due.
use position_core::{DueMoment, Position};

/// When a position is due, in milliseconds since 1970. In order of the moments, and of the positions
/// where these are the same.
#[derive(Clone, Copy, Debug, PartialEq, Eq, PartialOrd, Ord)]
pub struct Due {
    pub moment: u64,
    pub position: Position,
}

/// A position, and the moment when it is due, if it has one.
#[derive(Clone, Copy, Debug, PartialEq, Eq)]
pub struct Slot {
    pub position: Position,
    pub due: Option<DueMoment>,
}

impl Slot {
    ghost use Rattle.std.specs.Prelude.{◌≡◌};
    ghost use Rattle.pending_core.specs.Due.{due_of};

    pub(crate) fn due(self) -> Option<Due>
        ensures { result ≡ due_of self }
    {
        let position = self.position;
        self.due.map(|moment| Due { moment, position })
    }
}

impl Due {
    ghost use Rattle.std.specs.Prelude.{◌≡◌};
    ghost use Rattle.pending_core.specs.Due.{earlier};

    /// The earlier of two, where there are any.
    pub(crate) fn earlier(a: Option<Due>, b: Option<Due>) -> Option<Due>
        ensures { result ≡ earlier a b }
    {
        match (a, b) {
            (Some(x), Some(y)) => Some(x.min(y)),
            (Some(_), None) => a,
            (None, _) => b,
        }
    }
}

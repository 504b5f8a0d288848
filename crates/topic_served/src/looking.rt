// What is visible.
use crate::served::Served;
use position_core::{LogIndex, Position};

impl Served {
    ghost use Rattle.std.specs.Prelude.{◌≡◌, ◌<◌, Some, IfSome, is_some};
    ghost use Rattle.std.specs.List.{list_any};
    ghost use Rattle.log_pieces.specs.Pieces.{index_of};
    ghost use Rattle.delivery_machine.specs.Words.{has_position, visible};
    ghost use Rattle.topic_parts.specs.Parts.{log_of};
    ghost use Rattle.topic_served.specs.Served.{state_in};

    /// The index of the message at the position, where it is visible.
    pub fn visible_at(&self, position: Position) -> Option<LogIndex>
        ensures some { IfSome result (λ i. index_of position (log_of self.now.parts) ≡ Some i) }
        ensures within { IfSome result (λ i. i < (state_in self.now).durable) }
        ensures seen { is_some result ≡ list_any (has_position position) (visible (state_in self.now)) }
    {
        let durable = self.parts.log.durable();
        let Some(index) = self.parts.log.index_of(position) else {
            return None;
        };
        if index < durable {
            Some(index as u64)
        } else {
            None
        }
    }
}

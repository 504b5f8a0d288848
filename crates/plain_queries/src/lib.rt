//! What is asked of the lists of the plain topic: what is found, chosen and counted among them.
#![tactic(auto)]

mod due;
mod dying;
mod keyed;
mod kinds;
mod log;
mod members;
mod seeking;
mod statistics;
mod trimming;
mod turn;

pub use due::{first_due, pending_positions};
pub use dying::dying_at;
pub use keyed::next_of_any_hash;
pub use kinds::{has_kind, is_in_order_at};
pub use log::{first_waiting, has_room, last_entry, last_sequence, message_at};
pub use members::{active_at, count_at};
pub use seeking::{count_before, count_earlier, first_live};
pub use statistics::{mark_delete, number_acknowledged, number_live, number_pending, oldest};
pub use trimming::free_at_front;
pub use turn::next_in_turn;

//! The rows of topics: what stands in the database of what is kept of a topic.
#![tactic(auto)]

mod ack_difference;
pub mod author_difference;
mod between;
mod change;
mod count_difference;
mod dead_difference;
mod places;
mod retention_difference;
mod side;
pub mod sub_difference;
mod texts;

pub use change::{AckRow, Change, CountRow, DeadRow, Difference, RetentionRow, SubRow};
pub use places::Place;
pub use texts::topic_text;

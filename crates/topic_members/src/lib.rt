//! The members of all subscriptions of a topic, in the order of their numbers.
#![tactic(auto)]

mod changing;
mod line;
mod list;
mod member;
mod members;

pub use list::Members;
pub use member::{Member, Terms};
pub use members::{member_at, place_of_member};

//! The keeper of topics' rows in a database: several snapshots are stored in one transaction, each by what
//! changed since the one before it.
#![tactic(auto)]

mod cause;
mod counting;
mod deleting;
mod finding;
mod keeper;
mod knowing;
mod known;
pub mod laws;
mod loading;
mod opening;
mod pace;
mod planning;
mod reading;
mod rounds;
mod topics;
mod unstored;
mod written;

pub use cause::Cause;
pub use counting::{SubscriptionCount, TopicCount};
pub use keeper::Keeper;
pub use loading::Unread;
pub use opening::Refused;
pub use pace::Pace;
pub use topics::{LoadedTopic, OpenCell, load_topic, open_cell};
pub use unstored::{Failed, Unmade, Unstored};
pub use written::Written;

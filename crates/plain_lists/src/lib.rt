//! The parts of the plain topic: sets and tables of positions, producers, members and subscriptions, as lists, and their updates.
#![tactic(auto)]

mod authors;
mod auto;
mod counts;
mod kept;
mod letter;
mod member;
mod members;
mod pending;
mod places;
mod positions;
mod producer;
mod subscription;
mod subscriptions;
mod table;
mod trimming;

pub use authors::{greatest_of, raised, remember_all};
pub use auto::{auto_name, least_free};
pub use counts::CountTable;
pub use member::{Member, Terms};
pub use members::{empty_at, leave_out_at, member_at, place_of_member, take_member};
pub use pending::PendingTable;
pub use positions::{PositionSet, positions_of, positions_up_to};
pub use producer::{Producer, drop_producer, is_connected, producer_at};
pub use subscription::Subscription;
pub use subscriptions::{
    drop_subscription, place_for, place_of_subscription, store_all, store_all_to, subscription_at,
};
pub use trimming::{forget_messages, is_done};

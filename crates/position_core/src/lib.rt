//! The values of a topic: positions, names, moments, bodies, messages and refusals.
#![tactic(auto)]

mod block;
mod body;
mod bounded;
mod fault;
mod flow;
mod held;
mod kind;
mod message;
mod moment;
mod name;
mod numbers;
mod payload;
mod position;
mod properties;
mod ranges;
mod text;
mod topic_name;

pub use block::Block;
pub use body::{Body, Content};
pub use bounded::{
    Bounded, Credit, LedgerSize, Level, Millis, Permits, RedeliverLimit, SkipLength, WindowSize,
};
pub use fault::Fault;
pub use flow::Flow;
pub use held::Held;
pub use kind::Kind;
pub use message::{Entry, Message};
pub use moment::{Base, Moment};
pub use name::{Name, SubscriptionName};
pub use numbers::{ConsumerNumber, DueMoment, LogIndex, Ordinal, ProducerNumber};
pub use payload::Payload;
pub use position::Position;
pub use properties::Properties;
pub use ranges::{HashRange, Ranges};
pub use text::{Key, ProducerName, Text};
pub use topic_name::TopicName;

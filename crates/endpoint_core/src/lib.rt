//! The routes of WebSocket handshakes: the target of a request, read as an endpoint.
#![tactic(auto)]

mod admitted;
mod consumers;
mod dead_letters;
mod faults;
mod fields;
mod hosts;
mod letters;
mod modes;
mod numbers;
mod origins;
mod paths;
mod producers;
mod queries;
mod ranges;
mod routes;
mod targets;
mod texts;
mod words;

pub use admitted::Admitted;
pub use consumers::ConsumerEndpoint;
pub use faults::{Cause, Role, RouteFault};
pub use fields::Field;
pub use letters::Letters;
pub use modes::Mode;
pub use origins::may_come;
pub use producers::ProducerEndpoint;
pub use routes::{AdminEndpoint, Endpoint, route};
pub use targets::has_one_reading;

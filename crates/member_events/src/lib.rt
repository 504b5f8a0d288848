//! The fast topic's events of consumers: joining and leaving a subscription, permits, and collecting.
#![tactic(auto)]

mod changing_kind;
mod entering;
mod leaving;
mod opening;
mod permitting;
mod refusing;
mod releasing;
mod subscribing;
mod taking_over;

pub use leaving::leave;
pub use permitting::{collect, out_copy, permit};
pub use subscribing::subscribe;

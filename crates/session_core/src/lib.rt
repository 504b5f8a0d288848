//! Sessions: what a producer, a consumer or an administrator says over a connection is asked of one topic, and what that is
//! answered becomes texts.
#![tactic(auto)]

mod asking;
mod dues;
mod ending;
pub mod laws;
mod opening;
mod sending;
mod serving;
mod session;
mod stop;
mod texts;
mod waiting;

pub use opening::open;
pub use serving::{TextCount, leave, serve, turn};
pub use session::Session;
pub use waiting::Waits;

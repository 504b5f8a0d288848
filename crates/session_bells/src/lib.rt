//! Bells: what a session that has nothing to do leaves at its topic, so that it is woken when there is something. They
//! are hints. A session that is served sends the same texts whenever that is, so nothing is proved of them but that
//! they are safe.
#![tactic(auto)]

mod asked;
mod bell;
mod bells;
mod line;
mod resident;
mod resting;

pub use asked::Asked;
pub use bell::Bell;
pub use bells::Bells;
pub use resting::Rest;

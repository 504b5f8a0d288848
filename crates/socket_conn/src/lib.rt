//! A session's connection over a WebSocket on a stream that does not block.
#![tactic(auto)]

mod answering;
mod asked;
mod conn;
mod faults;
mod framed;
mod frames;
mod head;
mod held;
mod outcomes;
mod shaking;
mod traffic;
mod waits;

pub use answering::{Answered, Answering};
pub use asked::Asked;
pub use conn::SocketConn;
pub use frames::CountsFrames;
pub use head::{Head, Request, Upgrade, read_head};
pub use held::Held;
pub use shaking::{Shaken, Shaking};
pub use traffic::Traffic;
pub use waits::CountsWaits;

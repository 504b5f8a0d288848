//! What a session stands between: its connection, and the caller of its topic; and what whoever has the topic makes of a
//! request that is more than one event.
#![tactic(auto)]

mod alone;
mod caller;
mod conn;
mod creating;
mod hold;
mod list_conn;
mod looking;
mod request;
mod topic_caller;

pub use alone::Alone;
pub use caller::{Caller, ask, ask_for};
pub use conn::{Conn, ConnFault, Incoming};
pub use creating::create;
pub use hold::Hold;
pub use list_conn::{Closed, ListConn, Told};
pub use looking::Look;
pub use request::{PeekLength, Request};
pub use topic_caller::{Line, Lines, TopicCaller};

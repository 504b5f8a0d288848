//! The law of a dispatcher: what it sees of a topic, what it answers, and what it is told; and the first waiting message, without a walk.
#![tactic(auto)]

mod dispatcher;
mod members;
mod turn;
mod view;
mod waiting_places;

pub use dispatcher::{Dispatcher, Offer};
pub use members::Members;
pub use turn::is_sooner;
pub use view::{Seen, View};
pub use waiting_places::WaitingPlaces;

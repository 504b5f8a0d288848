//! The loops of a broker's workers: each serves many connections when they have something to do. What a connection is
//! served with is up to the house that it comes to.
#![tactic(auto)]

mod accepting;
mod addresses;
mod alarm;
mod attending;
mod client;
mod crew;
mod crowd;
mod house;
mod job;
mod post;
mod putter;
mod rounds;
mod silence;
mod stopwatch;
mod tally;
mod timers;
mod troubles;
mod worker;

pub use accepting::{Ended, Limits};
pub use addresses::counted;
pub use attending::serve;
pub use house::{After, Asking, Comer, House, Time, Turned};
pub use job::{Job, Start, work_at};
pub use post::Doorbell;
pub use silence::Patience;

//! The server: sessions at topics, over connections that its workers serve.
#![tactic(auto)]

mod accepting;
mod callers;
mod desk;
mod entering;
mod guest;
mod log;
mod pages;
mod place;
mod process;
mod quoted;
mod refusals;
mod refusing;
mod serving;
mod waiting;
mod whence;

pub use callers::PerAddress;
pub use place::{About, Place, Rules, VERSION};
pub use refusing::Refused;
pub use worker_loops::{Doorbell, Ended, Limits, Patience, serve};

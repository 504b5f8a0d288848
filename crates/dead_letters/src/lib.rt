//! The courier, which moves dead letters to their topics: what it asks next, and what it makes of the answer; and what holds
//! of the letters that were moved, whatever happens at two topics and the couriers between them.
#![tactic(auto)]

mod hand;
pub mod laws;
mod moving;
mod route;
mod stepping;

pub use hand::{Hand, Letter};
pub use moving::{Move, Side, after, next_move};
pub use route::Route;
pub use stepping::{Stepped, step};

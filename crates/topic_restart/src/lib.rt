//! A topic beside what is stored of it, from which it goes on after a restart.
#![tactic(auto)]

mod ledger;
mod restartable;

pub use ledger::ledger_after;
pub use restartable::Restartable;

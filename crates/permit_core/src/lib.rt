//! A consumer's room while it runs: a window with what is pending in it, or the credit that is left.
#![tactic(auto)]

mod flow;

pub use flow::Flow;

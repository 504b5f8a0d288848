//! Messages in pieces: a long list of messages of which a copy shares all but the last ones.
#![tactic(auto)]

mod loose;
mod pieces;
mod search;
mod segment;
mod segments;
mod times;

pub use pieces::Pieces;

//! Sets of numbers below a room, and the first number of each hash.
#![tactic(auto)]

mod chunks;
mod hash_firsts;
mod layer;
mod node;
mod place_bits;
mod summed;
mod top;
mod tournament;
mod words;

pub use hash_firsts::HashFirsts;
pub use place_bits::PlaceBits;

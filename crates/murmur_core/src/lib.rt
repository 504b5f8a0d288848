//! The hash of a message's key: Murmur3 (x86, 32 bits), and the 16 bits of it that a subscription
//! divides among its consumers.
#![tactic(auto)]

mod murmur;
mod sticky;

pub use murmur::murmur3_32;
pub use sticky::sticky_hash;

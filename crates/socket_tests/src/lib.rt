//! Tests of connections: what they read in a turn, what they give their session, and what goes out.
#![tactic(auto)]

#[cfg(test)]
mod tests;

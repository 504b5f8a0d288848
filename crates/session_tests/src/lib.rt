//! Tests of sessions: what they say and hear, and the bells by which they are woken.
#![tactic(auto)]

#[cfg(test)]
mod tests;

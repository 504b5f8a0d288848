//! Tests of the server: the directory of topics over a database in memory.
#![tactic(auto)]

#[cfg(test)]
mod tests;

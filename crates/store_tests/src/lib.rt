//! Tests of the store: what its keeper stores, loads and refuses, over databases in memory and on disks that stop.
#![tactic(auto)]

#[cfg(test)]
mod tests;

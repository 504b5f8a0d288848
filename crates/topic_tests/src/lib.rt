//! Tests of topics and of what they are made of: hashes, ids and shares against tables from outside, dispatchers over a
//! view of lists, logs; both topics where no line asks, replays whose reader or writer fails, and a topic under its lock.
#![tactic(auto)]

#[cfg(test)]
mod list_view;
#[cfg(test)]
mod tests;

// What is handed over, and what a pass knows.
use std::collections::LinkedList;

/// A connection with its number.
#[derive(Drop)]
pub struct Numbered<C> {
    pub number: u64,
    pub connection: C,
}

/// What a pass has put, if it is the one that puts, and what it has taken. No value of it is made.
pub struct View {
    pub puts: bool,
    pub put: LinkedList<u64>,
    pub taken: LinkedList<u64>,
}

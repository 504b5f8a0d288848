// The hashes in chunks of 256, with a tournament for each, and one over the least of each.
ghost use Rattle.std.specs.Prelude.{◌≡◌, ℕ, ◌<◌, ◌≤◌, ◌/◌, ◌%◌, ◌==◌, ◌≢◌, true, OnOk, OnErr, length};
ghost use Rattle.number_sets.specs.Nodes.{nothing, lowered, IsNotBelow, IsLeastOf};
ghost use Rattle.number_sets.specs.Firsts.{leaf_in, room_in, first_at, AreTied};

use crate::node::{LEAVES, Node};
use crate::tournament::Tournament;
use std::alloc::AllocError;

pub(crate) fn chunk_of(hash: u16) -> usize
    ensures { result ≡ hash / 256 }
{
    usize::from(hash) / LEAVES
}

pub(crate) fn place_in_chunk(hash: u16) -> usize
    ensures { result ≡ hash % 256 }
{
    usize::from(hash) % LEAVES
}

/// What a chunk has at a leaf.
pub(crate) fn leaf_in(chunks: &[Tournament], chunk: usize, leaf: usize) -> Node
    requires { leaf < 256 }
    ensures { result ≡ leaf_in chunks.now chunk leaf }
{
    match chunks.get(chunk) {
        Some(tournament) => tournament.leaf(leaf),
        None => Node::nothing(),
    }
}

/// Makes chunks without room up to this one.
fn add_chunks(chunks: &mut Vec<Tournament>, chunk: usize) -> Result<(), AllocError>
    requires within { chunk < 256 }
    requires few { length chunks.old.items ≤ 256 }
    ensures ok { OnOk result (chunk < length chunks.new.items) }
    ensures few { length chunks.new.items ≤ 256 }
    ensures leaves { (c k : ℕ) → leaf_in chunks.new.items c k ≡ leaf_in chunks.old.items c k }
    ensures room { (c : ℕ) → room_in chunks.new.items c ≡ room_in chunks.old.items c }
{
    while chunks.len() <= chunk {
        let tournament = Tournament::new(*chunks.allocator());
        chunks.push(tournament)?;
    }
    Ok(())
}

/// Makes room in a chunk.
fn grow_in(chunks: &mut [Tournament], chunk: usize) -> Result<(), AllocError>
    requires { chunk < length chunks.old }
    ensures ok { OnOk result (room_in chunks.new chunk ≡ true) }
    ensures err { OnErr result ((c : ℕ) → room_in chunks.new c ≡ room_in chunks.old c) }
    ensures leaves { (c k : ℕ) → leaf_in chunks.new c k ≡ leaf_in chunks.old c k }
    ensures kept { (c : ℕ) → room_in chunks.old c ≡ true → room_in chunks.new c ≡ true }
{
    chunks[chunk].grow()
}

/// Makes the chunk, if there is none, and room in it.
pub(crate) fn grow(chunks: &mut Vec<Tournament>, chunk: usize) -> Result<(), AllocError>
    requires within { chunk < 256 }
    requires few { length chunks.old.items ≤ 256 }
    ensures ok { OnOk result (room_in chunks.new.items chunk ≡ true) }
    ensures err { OnErr result ((c : ℕ) → room_in chunks.new.items c ≡ room_in chunks.old.items c) }
    ensures few { length chunks.new.items ≤ 256 }
    ensures leaves { (c k : ℕ) → leaf_in chunks.new.items c k ≡ leaf_in chunks.old.items c k }
    ensures kept { (c : ℕ) → room_in chunks.old.items c ≡ true → room_in chunks.new.items c ≡ true }
{
    add_chunks(chunks, chunk)?;
    grow_in(chunks, chunk)
}

/// Puts a node in a place of a chunk.
pub(crate) fn set_in(chunks: &mut [Tournament], chunk: usize, leaf: usize, node: Node)
    requires within { leaf < 256 }
    requires room { room_in chunks.old chunk ≡ true }
    ensures here { leaf_in chunks.new chunk leaf ≡ node }
    ensures leaves { (k : ℕ) → k ≢ leaf → leaf_in chunks.new chunk k ≡ leaf_in chunks.old chunk k }
    ensures others { (c k : ℕ) → c ≢ chunk → leaf_in chunks.new c k ≡ leaf_in chunks.old c k }
    ensures room { (c : ℕ) → room_in chunks.new c ≡ room_in chunks.old c }
{
    chunks[chunk].set(leaf, node);
}

/// Puts nothing in each place.
pub(crate) fn clear(chunks: &mut [Tournament])
    ensures leaves { (c k : ℕ) → leaf_in chunks.new c k ≡ nothing }
    ensures room { (c : ℕ) → room_in chunks.new c ≡ room_in chunks.old c }
{
    let mut chunk = 0;
    while chunk < chunks.len() {
        chunks[chunk].clear();
        chunk += 1;
    }
}

/// Makes the number of each place of a chunk less.
fn lower_in(chunks: &mut [Tournament], chunk: usize, by: u64)
    requires within { chunk < length chunks.old }
    requires low { (k : ℕ) → k < 256 → IsNotBelow by (leaf_in chunks.old chunk k) }
    ensures here { (k : ℕ) → leaf_in chunks.new chunk k ≡ lowered by (leaf_in chunks.old chunk k) }
    ensures others { (c k : ℕ) → c ≢ chunk → leaf_in chunks.new c k ≡ leaf_in chunks.old c k }
    ensures room { (c : ℕ) → room_in chunks.new c ≡ room_in chunks.old c }
{
    chunks[chunk].lower(by);
}

/// Makes the number of each place less.
pub(crate) fn lower(chunks: &mut [Tournament], by: u64)
    requires { (c k : ℕ) → k < 256 → IsNotBelow by (leaf_in chunks.old c k) }
    ensures leaves { (c k : ℕ) → leaf_in chunks.new c k ≡ lowered by (leaf_in chunks.old c k) }
    ensures room { (c : ℕ) → room_in chunks.new c ≡ room_in chunks.old c }
{
    let mut chunk = 0;
    while chunk < chunks.len() {
        lower_in(chunks, chunk, by);
        chunk += 1;
    }
}

/// The least of the leaves `from` up to but not `end` of one chunk.
pub(crate) fn least_in(chunks: &[Tournament], chunk: usize, from: usize, end: usize) -> Node
    requires from { from ≤ 256 }
    requires end { end ≤ 256 }
    ensures { IsLeastOf (leaf_in chunks.now chunk) from end result }
{
    match chunks.get(chunk) {
        Some(tournament) => tournament.least(from, end),
        None => Node::nothing(),
    }
}

/// The least of the hashes `from` up to but not `end`.
pub(crate) fn least(chunks: &[Tournament], top: &Tournament, from: usize, end: usize) -> Node
    requires tied { AreTied chunks.now top.now }
    requires order { from ≤ end }
    requires within { end ≤ 65536 }
    ensures { IsLeastOf (first_at chunks.now) from end result }
{
    let first = from / LEAVES;
    let last = end / LEAVES;
    if first == last {
        return least_in(chunks, first, from % LEAVES, end % LEAVES);
    }
    let before = least_in(chunks, first, from % LEAVES, LEAVES);
    let between = top.least(first + 1, last);
    let after = least_in(chunks, last, 0, end % LEAVES);
    Node::better(Node::better(before, between), after)
}

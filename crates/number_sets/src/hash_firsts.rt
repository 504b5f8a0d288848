// For each hash at most one number, with the least of a range of hashes at hand, as its callers see them.
ghost use Rattle.std.specs.Prelude.{◌≡◌, ℕ, ◌-◌, ◌^◌, ◌<◌, ◌≤◌, true, Some, OnOk, OnErr, IfSome, IfNone};
ghost use Rattle.std.specs.Option.{option_map};
ghost use Rattle.std.specs.FinMap as map_of;
ghost use Rattle.std.specs.FinSet as set;
ghost use Rattle.number_sets.specs.Nodes.{none_yet, number_of, IsLeastOf};
ghost use Rattle.number_sets.specs.Firsts.{IsLeastIn, NoneIn, with_number};

use crate::chunks;
use crate::node::{LEAVES, NO_NUMBER, Node};
use crate::tournament::Tournament;
use std::alloc::{AllocError, Global};
use std::marker::Model;

/// How many hashes there are.
const HASHES: u32 = 65536;

/// For each hash at most one number, in chunks of 256 hashes. Only `grow` takes memory, for the whole
/// chunk of a hash. A call takes the logarithm of the number of hashes.
pub struct HashFirsts {
    chunks: Vec<Tournament>,
    /// Has the least number of each chunk.
    top: Tournament,
}

impl Drop for HashFirsts {
    fn drop(self) {
        let HashFirsts { chunks: _, top: _ } = self;
    }
}

impl Model for HashFirsts {
    ghost use Rattle.number_sets.specs.Firsts.{Firsts, firsts_code, firsts_of, AreTied};

    ghost Value = { Firsts };

    ghost coded = { firsts_code };

    ghost view = { λ a. firsts_of a.chunks.items };

    ghost invariant = { λ a. AreTied a.chunks.items a.top };
}

impl HashFirsts {
    /// No hash has a number, or room for one.
    pub fn new(alloc: Global) -> Self
        ensures { result ≡ record { numbers = map_of.empty; room = set.empty } }
    {
        HashFirsts {
            chunks: Vec::new(alloc),
            top: Tournament::new(alloc),
        }
    }

    /// Makes room for the hash.
    pub fn grow(&mut self, hash: u16) -> Result<(), AllocError>
        ensures ok { OnOk result (set.contains self.new.room hash ≡ true) }
        ensures kept { (h : ℕ) → set.contains self.old.room h ≡ true → set.contains self.new.room h ≡ true }
        ensures same { self.new.numbers ≡ self.old.numbers }
        ensures err { OnErr result (self.new ≡ self.old) }
    {
        let chunk = chunks::chunk_of(hash);
        self.top.grow()?;
        chunks::grow(&mut self.chunks, chunk)
    }

    fn node_of(&self, hash: u16) -> Node
        ensures number { number_of result ≡ map_of.get self.now.numbers hash }
        ensures room { result.number < none_yet → set.contains self.now.room hash ≡ true }
    {
        let chunk = chunks::chunk_of(hash);
        chunks::leaf_in(&self.chunks, chunk, chunks::place_in_chunk(hash))
    }

    /// The number of the hash.
    pub fn get(&self, hash: u16) -> Option<u64>
        ensures { result ≡ map_of.get self.now.numbers hash }
    {
        self.node_of(hash).number()
    }

    fn set(&mut self, hash: u16, node: Node)
        requires room { set.contains self.old.room hash ≡ true }
        requires hash { node.number < none_yet → node.hash ≡ hash }
        ensures { self.new ≡ record self.old { numbers = with_number self.old.numbers hash (number_of node) } }
    {
        let chunk = chunks::chunk_of(hash);
        chunks::set_in(&mut self.chunks, chunk, chunks::place_in_chunk(hash), node);
        let least = chunks::least_in(&self.chunks, chunk, 0, LEAVES);
        self.top.set(chunk, least);
    }

    /// Gives the hash this number instead of the one that it has.
    pub fn put(&mut self, hash: u16, number: u64)
        requires room { set.contains self.old.room hash ≡ true }
        requires small { number < 2 ^ 32 - 1 }
        ensures { self.new ≡ record self.old { numbers = map_of.insert self.old.numbers hash number } }
    {
        let number = number as u32;
        self.set(hash, Node { number, hash });
    }

    /// Takes the number of the hash out, if it has one.
    pub fn take_out(&mut self, hash: u16)
        ensures { self.new ≡ record self.old { numbers = map_of.remove self.old.numbers hash } }
    {
        if self.node_of(hash).number < NO_NUMBER {
            self.set(hash, Node::nothing());
        }
    }

    /// The least number of the hashes `from` up to but not `end`, with its hash.
    pub fn least(&self, from: u32, end: u32) -> Option<(u64, u16)>
        ensures some { IfSome result (IsLeastIn self.now.numbers from end) }
        ensures none { IfNone result (NoneIn self.now.numbers from end) }
    {
        let end = end.min(HASHES);
        let from = from.min(end);
        chunks::least(&self.chunks, &self.top, from as usize, end as usize).found()
    }

    /// Takes all numbers out, and keeps the room.
    pub fn clear(&mut self)
        ensures { self.new ≡ record self.old { numbers = map_of.empty } }
    {
        chunks::clear(&mut self.chunks);
        self.top.clear();
    }

    /// Makes the number of each hash less by `by`. Goes over the hashes of each chunk in which one has a
    /// number.
    pub fn lower(&mut self, by: u64)
        requires { (hash number : ℕ) → hash < 2 ^ 16 → map_of.get self.old.numbers hash ≡ Some number → by ≤ number }
        ensures numbers { (hash : ℕ) → map_of.get self.new.numbers hash ≡ option_map (λ number. number - by) (map_of.get self.old.numbers hash) }
        ensures room { self.new.room ≡ self.old.room }
    {
        chunks::lower(&mut self.chunks, by);
        self.top.lower(by);
    }
}

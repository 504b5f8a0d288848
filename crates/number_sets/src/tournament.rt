// A tree of 256 leaves that is made only when it is needed.
ghost use Rattle.std.specs.Prelude.{◌≡◌, ◌≢◌, ℕ, ◌<◌, ◌≤◌, ◌==◌, true, false, if◌then◌else◌, OnOk, OnErr, vec_len};
ghost use Rattle.number_sets.specs.Nodes.{nothing, leaf_at, lowered, IsNotBelow, IsRight, IsLeastOf};

use crate::node::{LEAVES, NO_NUMBER, Node, least, lower, node_at, set_leaf};
use std::alloc::{AllocError, Global};

/// Leaves, each with a number and its hash or with nothing. Without room all have nothing.
#[derive(Drop)]
pub(crate) struct Tournament {
    nodes: Vec<Node>,
    ghost right: { IsRight nodes.items },
    ghost sized: { 0 < vec_len nodes → vec_len nodes ≡ 512 },
}

impl Tournament {
    ghost use Rattle.number_sets.specs.Trees.{leaf_of, has_room};

    pub(crate) fn new(alloc: Global) -> Self
        ensures none { (k : ℕ) → leaf_of result k ≡ nothing }
        ensures room { has_room result ≡ false }
    {
        Tournament {
            nodes: Vec::new(alloc),
        }
    }

    /// Makes room for the leaves.
    pub(crate) fn grow(&mut self) -> Result<(), AllocError>
        ensures ok { OnOk result (has_room self.new ≡ true) }
        ensures err { OnErr result (has_room self.new ≡ has_room self.old) }
        ensures kept { has_room self.old ≡ true → has_room self.new ≡ true }
        ensures same { (k : ℕ) → leaf_of self.new k ≡ leaf_of self.old k }
    {
        if self.nodes.is_empty() {
            self.nodes.resize(2 * LEAVES, Node::nothing())?;
        }
        Ok(())
    }

    pub(crate) fn leaf(&self, leaf: usize) -> Node
        requires { leaf < 256 }
        ensures { result ≡ leaf_of self.now leaf }
    {
        node_at(&self.nodes, LEAVES + leaf)
    }

    pub(crate) fn set(&mut self, leaf: usize, node: Node)
        requires within { leaf < 256 }
        requires room { has_room self.old ≡ true }
        ensures leaves { (k : ℕ) → leaf_of self.new k ≡ (if k == leaf then node else leaf_of self.old k) }
        ensures room { has_room self.new ≡ true }
    {
        set_leaf(&mut self.nodes, leaf, node);
    }

    /// The least of the leaves `from` up to but not `end`.
    pub(crate) fn least(&self, from: usize, end: usize) -> Node
        requires from { from ≤ 256 }
        requires end { end ≤ 256 }
        ensures { IsLeastOf (leaf_of self.now) from end result }
    {
        least(&self.nodes, from, end)
    }

    /// Puts nothing in each leaf.
    pub(crate) fn clear(&mut self)
        ensures leaves { (k : ℕ) → leaf_of self.new k ≡ nothing }
        ensures room { has_room self.new ≡ has_room self.old }
    {
        self.nodes.fill(Node::nothing());
    }

    /// Makes the numbers of all leaves less. Goes over them only where one has a number.
    pub(crate) fn lower(&mut self, by: u64)
        requires { (k : ℕ) → k < 256 → IsNotBelow by (leaf_of self.old k) }
        ensures leaves { (k : ℕ) → leaf_of self.new k ≡ lowered by (leaf_of self.old k) }
        ensures room { has_room self.new ≡ has_room self.old }
    {
        if self.least(0, LEAVES).number < NO_NUMBER {
            lower(&mut self.nodes, by);
        }
    }
}

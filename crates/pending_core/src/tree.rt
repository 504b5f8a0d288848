// Slots in a row, each with a position and perhaps the moment when it is due, and the one that is due first.
ghost use Rattle.std.specs.Prelude.{◌≡◌, [], ◌∷◌, ◌++◌, ◌<◌, length, OnOk, OnErr, slice_get, slice_set, Some};
ghost use Rattle.std.specs.List.{swap_remove};
ghost use Rattle.pending_core.specs.Due.{due_at, IsFirst};

use crate::due::{Due, Slot};
use crate::node::{Node, first_at, slot_at};
use crate::row;
use std::alloc::{AllocError, Global};
use std::marker::Model;

/// Slots in a row. The one that is due first is known at once; a change takes the logarithm of their
/// number.
pub struct DueTree {
    nodes: Vec<Node>,
}

impl Drop for DueTree {
    fn drop(self) {
        let DueTree { nodes: _ } = self;
    }
}

impl Model for DueTree {
    ghost use Rattle.std.specs.Prelude.{List};
    ghost use Rattle.pending_core.specs.declared.due.Slot.{Slot};

    ghost Value = { List Slot };

    ghost use Rattle.pending_core.specs.Nodes.{slots_of, IsRight};

    ghost view = { λ t. slots_of t.nodes.items };

    ghost invariant = { λ t. IsRight t.nodes.items };
}

impl DueTree {
    pub fn new(alloc: Global) -> Self
        ensures { result ≡ [] }
    {
        DueTree {
            nodes: Vec::new(alloc),
        }
    }

    pub fn len(&self) -> usize
        ensures { result ≡ length self.now }
    {
        self.nodes.len()
    }

    pub fn get(&self, at: usize) -> Option<Slot>
        ensures { result ≡ slice_get self.now at }
    {
        slot_at(&self.nodes, at)
    }

    /// The slot that is due first.
    pub fn first(&self) -> Option<Due>
        ensures { IsFirst (due_at self.now) result }
    {
        first_at(&self.nodes, 0)
    }

    pub fn push(&mut self, slot: Slot) -> Result<(), AllocError>
        ensures ok { OnOk result (self.new ≡ self.old ++ slot ∷ []) }
        ensures err { OnErr result (self.new ≡ self.old) }
    {
        row::push(&mut self.nodes, slot)
    }

    /// Takes no memory.
    pub fn set(&mut self, at: usize, slot: Slot)
        requires { at < length self.old }
        ensures { self.new ≡ slice_set self.old at slot }
    {
        row::set(&mut self.nodes, at, slot);
    }

    /// The last slot goes where the one was that is taken out.
    pub fn swap_remove(&mut self, at: usize) -> Slot
        requires { at < length self.old }
        ensures slot { slice_get self.old at ≡ Some result }
        ensures others { self.new ≡ swap_remove self.old at result }
    {
        let slot = self.nodes[at].slot;
        let last = self.len() - 1;
        let moved = self.nodes[last].slot;
        row::set(&mut self.nodes, at, moved);
        row::pop(&mut self.nodes);
        slot
    }

    pub fn clear(&mut self)
        ensures { self.new ≡ [] }
    {
        self.nodes.clear();
    }
}

// Nodes that know which slot of their own and of those below them is due first.
ghost use Rattle.std.specs.Prelude.{◌≡◌, ◌≢◌, ℕ, ◌+◌, ◌-◌, ◌*◌, ◌/◌, ◌<◌, length, slice_get, false};
ghost use Rattle.pending_core.specs.Due.{due_at};
ghost use Rattle.pending_core.specs.Nodes.{slots_of, first_at, first_from, IsRight, IsRightBut};

use crate::due::{Due, Slot};

/// A slot, and the first due of it and of the nodes below. Below the node k stand 2k + 1 and 2k + 2.
#[derive(Clone, Copy)]
pub(crate) struct Node {
    pub(crate) slot: Slot,
    pub(crate) first: Option<Due>,
}

/// The node above one: the root is above itself.
pub(crate) fn parent(at: usize) -> usize
    ensures { result ≡ (at - 1) / 2 }
{
    at.saturating_sub(1) / 2
}

pub(crate) fn slot_at(nodes: &[Node], at: usize) -> Option<Slot>
    ensures { result ≡ slice_get (slots_of nodes.now) at }
{
    nodes.get(at).map(|node| node.slot)
}

pub(crate) fn first_at(nodes: &[Node], at: usize) -> Option<Due>
    ensures { result ≡ first_at nodes.now at }
{
    nodes.get(at).and_then(|node| node.first)
}

fn first_from(nodes: &[Node], at: usize) -> Option<Due>
    requires { at < length nodes.now }
    ensures { result ≡ first_from (due_at (slots_of nodes.now)) (first_at nodes.now) at }
{
    let below = Due::earlier(first_at(nodes, 2 * at + 1), first_at(nodes, 2 * at + 2));
    Due::earlier(nodes[at].slot.due(), below)
}

/// Makes one node right, and answers whether it was wrong.
fn renew(nodes: &mut [Node], at: usize) -> bool
    requires { at < length nodes.old }
    ensures slots { slots_of nodes.new ≡ slots_of nodes.old }
    ensures others { (k : ℕ) → k ≢ at → first_at nodes.new k ≡ first_at nodes.old k }
    ensures here { first_at nodes.new at ≡ first_from (due_at (slots_of nodes.old)) (first_at nodes.old) at }
    ensures same { result ≡ false → first_at nodes.new at ≡ first_at nodes.old at }
{
    let first = first_from(nodes, at);
    if nodes[at].first == first {
        return false;
    }
    nodes[at].first = first;
    true
}

/// Makes all nodes right, where at most one is wrong.
pub(crate) fn mend(nodes: &mut [Node], from: usize)
    requires within { from < length nodes.old }
    requires others { IsRightBut from nodes.old }
    ensures slots { slots_of nodes.new ≡ slots_of nodes.old }
    ensures right { IsRight nodes.new }
{
    let mut at = from;
    while renew(nodes, at) && at > 0 {
        at = parent(at);
    }
}

// Changes of a row of nodes that keep each node right.
ghost use Rattle.std.specs.Prelude.{◌≡◌, [], ◌∷◌, ◌++◌, ◌-◌, ◌<◌, length, vec_len, OnOk, OnErr, take, slice_set};
ghost use Rattle.pending_core.specs.Nodes.{slots_of, IsRight};

use crate::due::Slot;
use crate::node::{Node, mend, parent};
use std::alloc::AllocError;

pub(crate) fn push(nodes: &mut Vec<Node>, slot: Slot) -> Result<(), AllocError>
    requires { IsRight nodes.old.items }
    ensures right { IsRight nodes.new.items }
    ensures ok { OnOk result (slots_of nodes.new.items ≡ slots_of nodes.old.items ++ slot ∷ []) }
    ensures err { OnErr result (nodes.new.items ≡ nodes.old.items) }
{
    let at = nodes.len();
    let first = slot.due();
    nodes.push(Node { slot, first })?;
    mend(nodes, parent(at));
    Ok(())
}

pub(crate) fn set(nodes: &mut [Node], at: usize, slot: Slot)
    requires within { at < length nodes.old }
    requires right { IsRight nodes.old }
    ensures right { IsRight nodes.new }
    ensures slots { slots_of nodes.new ≡ slice_set (slots_of nodes.old) at slot }
{
    nodes[at].slot = slot;
    mend(nodes, at);
}

/// Takes the last node off.
pub(crate) fn pop(nodes: &mut Vec<Node>)
    requires { IsRight nodes.old.items }
    ensures right { IsRight nodes.new.items }
    ensures slots { slots_of nodes.new.items ≡ take (vec_len nodes.old - 1) (slots_of nodes.old.items) }
{
    nodes.pop();
    let left = nodes.len();
    if left > 0 {
        mend(nodes, parent(left));
    }
}

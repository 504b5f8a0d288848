// Numbers with their hashes, in a row that stands for a tree: below the node k stand 2k and 2k + 1.
ghost use Rattle.std.specs.Prelude.{◌≡◌, ℕ, ◌+◌, ◌*◌, ◌<◌, ◌≤◌, ◌==◌, if◌then◌else◌, length, slice_set};
ghost use Rattle.number_sets.specs.Nodes.{nothing, node_at, better, number_of, found_of, leaf_at, lowered, IsNotBelow, IsRight, IsRightBut, IsLeastOf};

/// How many leaves a tree has. They stand at the end of the row.
pub(crate) const LEAVES: usize = 256;

/// In place of a number, where there is none.
pub(crate) const NO_NUMBER: u32 = u32::MAX;

/// The least number of the leaves below, and its hash.
#[derive(Clone, Copy)]
pub(crate) struct Node {
    pub(crate) number: u32,
    pub(crate) hash: u16,
}

impl Node {
    pub(crate) fn nothing() -> Node
        ensures { result ≡ nothing }
    {
        Node {
            number: NO_NUMBER,
            hash: 0,
        }
    }

    pub(crate) fn number(self) -> Option<u64>
        ensures { result ≡ number_of self }
    {
        if self.number < NO_NUMBER {
            Some(u64::from(self.number))
        } else {
            None
        }
    }

    /// The number and its hash.
    pub(crate) fn found(self) -> Option<(u64, u16)>
        ensures { result ≡ found_of self }
    {
        if self.number < NO_NUMBER {
            Some((u64::from(self.number), self.hash))
        } else {
            None
        }
    }

    /// Its number, where it has one, less by `by`, or 0 where it is no more than that.
    fn lowered(self, by: u64) -> Node
        ensures { result ≡ lowered by self }
    {
        if self.number < NO_NUMBER {
            let number = u64::from(self.number).saturating_sub(by) as u32;
            Node { number, ..self }
        } else {
            self
        }
    }

    /// The one of two that has the lesser number.
    pub(crate) fn better(a: Node, b: Node) -> Node
        ensures { result ≡ better a b }
    {
        if b.number < a.number { b } else { a }
    }
}

/// The node at a place of the row, and nothing past its end.
pub(crate) fn node_at(nodes: &[Node], at: usize) -> Node
    ensures { result ≡ node_at nodes.now at }
{
    if at < nodes.len() {
        nodes[at]
    } else {
        Node::nothing()
    }
}

/// Makes all nodes right, where at most the one above this is wrong.
fn mend(nodes: &mut [Node], from: usize)
    requires within { from < 512 }
    requires sized { length nodes.old ≡ 512 }
    requires others { IsRightBut from nodes.old }
    ensures right { IsRight nodes.new }
    ensures leaves { (k : ℕ) → leaf_at nodes.new k ≡ leaf_at nodes.old k }
{
    let mut at = from;
    while at > 1 {
        at /= 2;
        nodes[at] = Node::better(node_at(nodes, 2 * at), node_at(nodes, 2 * at + 1));
    }
}

/// Puts a node in the place of a leaf.
pub(crate) fn set_leaf(nodes: &mut [Node], leaf: usize, node: Node)
    requires within { leaf < 256 }
    requires sized { length nodes.old ≡ 512 }
    requires right { IsRight nodes.old }
    ensures right { IsRight nodes.new }
    ensures leaves { (k : ℕ) → leaf_at nodes.new k ≡ (if k == leaf then node else leaf_at nodes.old k) }
{
    nodes[LEAVES + leaf] = node;
    mend(nodes, LEAVES + leaf);
}

/// Makes the numbers of all nodes less.
pub(crate) fn lower(nodes: &mut [Node], by: u64)
    requires sized { length nodes.old ≡ 512 }
    requires right { IsRight nodes.old }
    requires least { (k : ℕ) → k < 256 → IsNotBelow by (leaf_at nodes.old k) }
    ensures right { IsRight nodes.new }
    ensures leaves { (k : ℕ) → leaf_at nodes.new k ≡ lowered by (leaf_at nodes.old k) }
{
    for node in nodes.iter_mut() {
        *node = node.lowered(by);
    }
}

/// The node, where it counts.
fn counted(nodes: &[Node], at: usize, counts: bool) -> Node
    ensures { result ≡ (if counts then node_at nodes.now at else nothing) }
{
    if counts {
        node_at(nodes, at)
    } else {
        Node::nothing()
    }
}

/// The least of the leaves `from` up to but not `end`. Climbs from both ends: a node at the edge of
/// what is left counts where the node above it has a leaf outside.
pub(crate) fn least(nodes: &[Node], from: usize, end: usize) -> Node
    requires right { IsRight nodes.now }
    requires within { end ≤ 256 }
    requires from { from ≤ 256 }
    ensures { IsLeastOf (leaf_at nodes.now) from end result }
{
    let mut least = Node::nothing();
    let mut left = LEAVES + from;
    let mut right = LEAVES + end;
    while left < right {
        let leftmost = counted(nodes, left, left % 2 == 1);
        let rightmost = counted(nodes, right - 1, right % 2 == 1);
        least = Node::better(least, Node::better(leftmost, rightmost));
        left = left.div_ceil(2);
        right /= 2;
    }
    least
}

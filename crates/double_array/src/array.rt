// The double array itself: its nodes, with what holds of them between calls.
ghost use Rattle.cells.specs.Invariant.{Sound};

use super::nodes::Nodes;

// Paths of codes, each with its number, in cells; and the index, which leads each number to its leaf.
#[derive(Drop)]
pub struct DoubleArray {
    pub(super) nodes: Nodes,
    ghost sound: { Sound nodes.cells.items nodes.index.items },
}

// The nodes of a tree in cells, and the index that leads each number to its leaf.
ghost use Rattle.std.specs.Prelude.{◌≡◌, ℕ, ◌<◌, ◌≤◌, min, length, vec_len, slice_index};
ghost use Rattle.cells.specs.Cells.{at};
ghost use Rattle.cells.specs.Laws.{cleared};

use super::array::DoubleArray;
use cells::Cell;

// The cells that the nodes stand in, and the index. What holds of them between calls only is told by
// `DoubleArray`; a step asks for what it needs of it. Each step says that the two vectors stay where they
// are (`SameBuffers`), so that a refused call can leave the very same value, and not only equal cells.
#[derive(Drop)]
pub struct Nodes {
    pub(super) cells: Vec<Cell>,
    pub(super) index: Vec<u32>,
    ghost sized: { length cells.items ≤ 1048576 },
}

impl Nodes {
    // A root alone, and no number with a leaf. Of more than 1,048,576 cells the rest is given up.
    pub(super) fn new(mut cells: Vec<Cell>, mut index: Vec<u32>) -> Nodes
        ensures cells_len { length result.cells.items ≡ min (vec_len cells) 1048576 }
        ensures cells { (j : ℕ) → j < length result.cells.items → at result.cells.items j ≡ cleared j }
        ensures index_len { length result.index.items ≡ vec_len index }
        ensures index { (n : ℕ) → slice_index result.index.items n ≡ 0 }
    {
        cells.truncate(DoubleArray::MAX_CELLS);
        cells.fill(Cell::FREE);
        if let Some(root) = cells.get_mut(1) {
            *root = Cell::ROOT;
        }
        index.fill(0);
        Nodes { cells, index }
    }
}

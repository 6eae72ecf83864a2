// What is done with a double array.
ghost use Rattle.std.specs.Prelude.{◌≡◌, ℕ, ◌<◌, min, List, length, IfNone, IfSome, None, vec_len, OnErr, OnOk, slice_index};
ghost use Rattle.cells.specs.Cells.{at, child as child_of};
ghost use Rattle.cells.specs.Walking.{number_at};
ghost use Rattle.cells.specs.Counting.{in_use};
ghost use Rattle.cells.specs.Laws.{cleared, Walks};
ghost use Rattle.double_array.specs.Outcomes.{SameSizes, Taken, Removed, CountsBeginnings};
ghost use Rattle.double_array.specs.Entries.{EntersPath, Added};
ghost use Rattle.double_array.specs.Spellings.{cell_from_root, Written, Named};
ghost use Rattle.double_array.specs.Views.{cells_of, index_of};

use super::array::DoubleArray;
use super::faults::{NumberFault, PathFault};
use super::nodes::Nodes;
use cells::Cell;

impl DoubleArray {
    // The most cells that an array has.
    pub const MAX_CELLS: usize = 1_048_576;

    // An array without a path. Of more than 1,048,576 cells the rest is given up.
    pub fn new(cells: Vec<Cell>, index: Vec<u32>) -> DoubleArray
        ensures cells_len { length (cells_of result) ≡ min (vec_len cells) 1048576 }
        ensures cells { (j : ℕ) → j < length (cells_of result) → at (cells_of result) j ≡ cleared j }
        ensures index_len { length (index_of result) ≡ vec_len index }
        ensures index { (n : ℕ) → slice_index (index_of result) n ≡ 0 }
        ensures none { (p : List ℕ) → number_at (cells_of result) p ≡ None }
    {
        DoubleArray {
            nodes: Nodes::new(cells, index),
        }
    }

    // The number at the end of the path, or none where the path is not held: walking finds exactly the held paths.
    pub fn number_at(&self, path: &[u16]) -> Option<u32>
        ensures number { result ≡ number_at (cells_of self.now) path.now }
        ensures paths { Walks (cells_of self.now) path.now }
    {
        self.nodes.number_at(path)
    }

    // Enters the path with the number, or says why it is refused and changes nothing.
    pub fn enter(&mut self, path: &[u16], number: u32) -> Result<(), PathFault>
        ensures cells { EntersPath (cells_of self.old) (index_of self.old) path.now number result (cells_of self.new)
            (index_of self.new) }
        ensures sizes { SameSizes (cells_of self.old) (index_of self.old) (cells_of self.new) (index_of self.new) }
        ensures paths { OnOk result (Added (cells_of self.old) path.now number (cells_of self.new)) }
        ensures same { OnErr result (self.new ≡ self.old) }
    {
        self.nodes.enter(path, number)
    }

    // Takes the path out and says its number, or changes nothing where the path is not held.
    pub fn remove(&mut self, path: &[u16]) -> Option<u32>
        ensures cells { Taken (cells_of self.old) (index_of self.old) path.now result (cells_of self.new)
            (index_of self.new) }
        ensures sizes { SameSizes (cells_of self.old) (index_of self.old) (cells_of self.new) (index_of self.new) }
        ensures paths { Removed (cells_of self.old) path.now (cells_of self.new) }
        ensures same { IfNone result (self.new ≡ self.old) }
    {
        self.nodes.take_out(path)
    }

    // Writes the path of the number into the front of `out` and says its length, or writes nothing where the number has no
    // leaf or `out` is too short.
    pub fn path_of(&self, number: u32, out: &mut [u16]) -> Result<usize, NumberFault>
        ensures path { Written (cells_of self.now) (index_of self.now) number out.old result out.new }
        ensures paths { Named (cells_of self.now) (index_of self.now) number }
    {
        self.nodes.path_of(number, out)
    }

    // How many cells are in use: one more than the different non-empty beginnings of the held paths, and
    // none in an array of fewer than two cells.
    pub fn in_use(&self) -> usize
        ensures cells { result ≡ in_use (cells_of self.now) }
        ensures paths { CountsBeginnings (cells_of self.now) result }
    {
        self.nodes.in_use()
    }

    // The child of the node `s` by the code: none where there is no cell `s`.
    pub fn child(&self, s: usize, code: u16) -> Option<usize>
        ensures child { result ≡ child_of (cells_of self.now) s code }
        ensures within { IfSome result (λ t. t < length (cells_of self.now)) }
    {
        self.nodes.child(s, code)
    }

    // The cell that the path leads to from the root: none in an array of fewer than two cells, which has no root.
    pub fn cell_at(&self, path: &[u16]) -> Option<usize>
        ensures cell { result ≡ cell_from_root (cells_of self.now) path.now }
        ensures within { IfSome result (λ t. t < length (cells_of self.now)) }
    {
        self.nodes.cell_at(path)
    }

    // The cells.
    pub fn cells(&self) -> &[Cell]
        ensures { result.now ≡ cells_of self.now }
    {
        &self.nodes.cells
    }

    // The index.
    pub fn index(&self) -> &[u32]
        ensures { result.now ≡ index_of self.now }
    {
        &self.nodes.index
    }
}

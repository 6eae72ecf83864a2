// The numbers below a beginning: those of all held paths that begin so, in the order of the paths.
//
// This crate reads the cells of a double array by two walks that call each other, one over cells
// and one over edges. It knows nothing of words, and it changes no cell.
#![tactic(auto)]

mod room;
mod writing;

ghost use Rattle.std.specs.Prelude.{◌≡◌};
ghost use Rattle.cells.specs.Cells.{at, number};
ghost use Rattle.output.specs.Written.{Filled};
ghost use Rattle.double_array.specs.Views.{cells_of, index_of};
ghost use Rattle.subtrie.specs.Below.{numbers_from};
ghost use Rattle.subtrie.specs.Laws.{ListsBelow, NumbersBelow, Ordered};

use double_array::{DoubleArray, leaf_number};
use room::room_below;
use writing::write_below;

// The number of the cell `s`, if it is a leaf.
fn leaf_at(array: &DoubleArray, s: usize) -> Option<u32>
    ensures { result ≡ number (at (cells_of array.now) s).base }
{
    leaf_number(array.cells().get(s)?.base)
}

// Writes the numbers below the beginning into `out` from its start and answers how many, or writes
// nothing and answers none where `out` is too short.
fn write_from(array: &DoubleArray, beginning: &[u16], out: &mut [u32]) -> Option<usize>
    ensures { Filled (numbers_from (cells_of array.now) beginning.now) out.old result out.new }
{
    let Some(s) = array.cell_at(beginning) else {
        return Some(0);
    };
    let left = array.cells().len();
    room_below(array, s, left, out.len())?;
    Some(write_below(array, s, left, out, 0))
}

// Writes the numbers of all held paths that begin with `beginning` into `out` from its start, in
// the order of the paths, and answers how many: 0 where the beginning leads to no cell. Where `out`
// is too short it answers none, and nothing is written.
pub fn numbers_below(array: &DoubleArray, beginning: &[u16], out: &mut [u32]) -> Option<usize>
    ensures output { Filled (numbers_from (cells_of array.now) beginning.now) out.old result out.new }
    ensures paths { ListsBelow (cells_of array.now) beginning.now (numbers_from (cells_of array.now) beginning.now) }
    ensures members { NumbersBelow (cells_of array.now) beginning.now (numbers_from (cells_of array.now) beginning.now) }
    ensures order { Ordered (cells_of array.now) (index_of array.now) (numbers_from (cells_of array.now) beginning.now) }
{
    write_from(array, beginning, out)
}

// Writing the numbers below a cell: `write_below` takes a cell, and `write_edges` the codes that lead on from it.
//
// The output and the place in it stay two parameters: of an output that a struct holds, no contract could
// say what it holds when it is given back (tried).
ghost use Rattle.std.specs.Prelude.{◌≡◌, ◌+◌, ◌≤◌, length};
ghost use Rattle.output.specs.Written.{written};
ghost use Rattle.double_array.specs.Views.{cells_of};
ghost use Rattle.subtrie.specs.Below.{numbers_past, numbers_below};

use super::leaf_at;
use double_array::DoubleArray;

// Writes the numbers below the cell `s`, by at most `left` codes, into `out` from `at` on, and
// answers where they end.
#[cycle(write_below_write_edges)]
pub(super) fn write_below(
    array: &DoubleArray,
    s: usize,
    left: usize,
    out: &mut [u32],
    at: usize,
) -> usize
    requires { at + length (numbers_below left (cells_of array.now) s) ≤ length out.old }
    ensures end { result ≡ at + length (numbers_below left (cells_of array.now) s) }
    ensures after { out.new ≡ written out.old at (numbers_below left (cells_of array.now) s) }
{
    match leaf_at(array, s) {
        Some(n) => {
            out[at] = n;
            at + 1
        }
        None if left == 0 => at,
        None => write_edges(array, s, left - 1, out, at),
    }
}

// The same for the edges of `s`, with at most `left` codes past each.
#[cycle(write_below_write_edges)]
fn write_edges(array: &DoubleArray, s: usize, left: usize, out: &mut [u32], at: usize) -> usize
    requires { at + length (numbers_past left (cells_of array.now) s) ≤ length out.old }
    ensures end { result ≡ at + length (numbers_past left (cells_of array.now) s) }
    ensures after { out.new ≡ written out.old at (numbers_past left (cells_of array.now) s) }
{
    let mut next = at;
    for code in 1..258 {
        if let Some(t) = array.child(s, code) {
            next = write_below(array, t, left, out, next);
        }
    }
    next
}

// How much room the numbers below a cell take, by two functions in turn.
//
// That two walks call each other, with the codes left falling, is a rule of the project; so they hand on
// the array, the cell and the codes left, here and in the walks that write.
ghost use Rattle.std.specs.Prelude.{◌≡◌};
ghost use Rattle.double_array.specs.Views.{cells_of};
ghost use Rattle.subtrie.specs.Below.{numbers_past, numbers_below, room_after};

use super::leaf_at;
use double_array::DoubleArray;

// How many of `room` places are left after the numbers below the cell `s`, by at most `left` codes,
// or none where they are too few.
#[cycle(room_below_room_edges)]
pub(super) fn room_below(array: &DoubleArray, s: usize, left: usize, room: usize) -> Option<usize>
    ensures { result ≡ room_after room (numbers_below left (cells_of array.now) s) }
{
    match leaf_at(array, s) {
        Some(_) => room.checked_sub(1),
        None if left == 0 => Some(room),
        None => room_edges(array, s, left - 1, room),
    }
}

// The same for the edges of `s`, with at most `left` codes past each.
#[cycle(room_below_room_edges)]
fn room_edges(array: &DoubleArray, s: usize, left: usize, room: usize) -> Option<usize>
    ensures { result ≡ room_after room (numbers_past left (cells_of array.now) s) }
{
    let mut rest = room;
    for code in 1..258 {
        if let Some(t) = array.child(s, code) {
            rest = room_below(array, t, left, rest)?;
        }
    }
    Some(rest)
}

// What a link table holds.
ghost use Rattle.std.specs.Prelude.{◌≡◌, ◌≤◌, length};
ghost use Rattle.double_array.specs.Views.{cells_of, index_of};
ghost use Rattle.link_table.specs.Numbers.{held_numbers, NumbersAtMost};
ghost use Rattle.link_table.specs.Codes.{Triples};

use double_array::DoubleArray;

#[derive(Drop)]
pub struct LinkTable {
    // The codes of the present triples, each with its link number. The index has a place for each link number.
    pub(super) array: DoubleArray,
    pub(super) count: usize,
    // Where the next number is looked for.
    pub(super) cursor: usize,
    ghost few: { length (index_of array) ≤ 1048575 },
    ghost triples: { Triples (cells_of array) },
    ghost numbered: { NumbersAtMost (cells_of array) (length (index_of array)) },
    ghost counted: { count ≡ length (held_numbers (index_of array)) },
}

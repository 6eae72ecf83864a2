// What a trie list holds.
ghost use Rattle.std.specs.Prelude.{◌≤◌, length};
ghost use Rattle.double_array.specs.Views.{cells_of, index_of};
ghost use Rattle.trie_list.specs.Rolls.{HaveLeaves, HaveNoLeaves, NumbersWithin, Worded};

use double_array::DoubleArray;

#[derive(Drop)]
pub struct TrieList {
    // The paths of the words, each with the word's number.
    pub(super) array: DoubleArray,
    pub(super) count: usize,
    ghost within: { count ≤ length (index_of array) },
    ghost few: { length (index_of array) ≤ 65535 },
    ghost numbered: { HaveLeaves (index_of array) count },
    ghost unnumbered: { HaveNoLeaves (index_of array) count },
    ghost counted: { NumbersWithin (cells_of array) count },
    ghost worded: { Worded (cells_of array) (index_of array) count },
}

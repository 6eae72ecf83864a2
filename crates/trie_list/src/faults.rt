// What a refused path means for a word.
ghost use Rattle.std.specs.Prelude.{◌≡◌};
ghost use Rattle.trie_list.specs.Faults.{list_fault_of};

use double_array::PathFault;
use lexicon::ListFault;

// The fault of a list whose array refuses a word's path. The word was sized before, a list hands out each
// number once, and no word's path runs through the end of another, so only want of a place ever comes. By a
// function:
// `From` would have to stand in the crate of one of the two types, and neither knows the other.
pub(super) fn list_fault(path_fault: PathFault) -> ListFault
    ensures { result ≡ list_fault_of path_fault }
{
    match path_fault {
        PathFault::Path => ListFault::WordLength,
        PathFault::Number => ListFault::NoRoom,
        PathFault::Blocked => ListFault::NoRoom,
        PathFault::NoPlace => ListFault::NoRoom,
    }
}

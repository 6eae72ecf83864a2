// The trie list: a growing list that keeps its words as paths in a double array.
//
// This crate knows words as paths of labels with an end sign, and nothing of triples.
// The rules stand in docs/WORD_LISTS.md, "The trie list".
#![tactic(auto)]

mod calls;
mod faults;
mod list;
mod meanings;
mod spelling;

pub use list::TrieList;
pub use meanings::meaning;

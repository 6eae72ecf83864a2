// The plain list: a growing list in two arrays of bytes. One has the labels of all its words without a gap,
// the other how many labels each word has.
//
// This crate knows bytes and lengths, and nothing of cells, scripts or links.
// The rules stand in docs/WORD_LISTS.md, "The plain list".
#![tactic(auto)]

mod calls;
mod list;
mod meanings;
mod search;

pub use list::PlainList;
pub use meanings::meaning;

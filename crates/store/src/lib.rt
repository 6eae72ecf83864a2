// The store: words, triples of words, and a record for each triple.
//
// A store is three things side by side: a word list, the `RelationTable` with its link numbers, and
// a record array. Its eight calls are methods of the table, which are lent the list and the records
// that they need. This crate knows scripts, lists and record types by their interfaces only, and
// cells not at all. Crate `requests` makes any call by a request, and carries the law of every
// history. The rules stand in docs/STORE.md.
#![tactic(auto)]

mod changing;
mod linking;
mod making;
mod reading;
mod table;
mod words;

pub use table::RelationTable;

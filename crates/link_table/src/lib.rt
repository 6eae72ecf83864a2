// The link table: which triples are present, and the link number of each.
//
// This crate knows triples of two word numbers and a relation, their codes of five labels, link
// numbers, and one double array with its index. It knows nothing of words, scripts or records but
// how many records there are. The rules stand in docs/LINKS.md.
#![tactic(auto)]

mod changing;
mod codes;
mod faults;
mod meanings;
mod numbers;
mod reading;
mod table;
mod triple;

pub use faults::LinkFault;
pub use meanings::meaning;
pub use table::LinkTable;
pub use triple::Triple;

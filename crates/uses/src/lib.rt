// Callers to copy from: what a program does with a store, and how its own contract rests on the law.
//
// `evidence_of` makes a store, adds pairs, deletes one and reads by number; its contract says that the
// number it was handed still leads to its own pair and record; `evidence_at` reads by a number, and its
// contract says the same of every history. `new_overlaid` and `perform_overlaid` are
// a store over a list above another (crate `overlay`), for which the law holds like for any list.
// `byte_text_begins` names the stores that the two lists and the two record types make.
#![tactic(auto)]

mod begins;
mod evidence;
mod overlaid;

pub use begins::byte_text_begins;
pub use evidence::{evidence_at, evidence_of};
pub use overlaid::{new_overlaid, perform_overlaid};

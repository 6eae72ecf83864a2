// A double array: paths of codes 1 to 257 in cells, each with the number at its end.
//
// `DoubleArray` owns the cells and the index, and is the one way to change them: it is made, a path
// is entered or removed, and the path of a number and the number of a path are read. Below it stand
// its `Nodes`, the cells and the index, whose methods each say what cells they leave. A child and a
// path are looked up in any slice of cells too, by `child` and `cell_at`.
#![tactic(auto)]

mod array;
mod calls;
mod edges;
mod entering;
mod faults;
mod nodes;
mod paths;
mod placing;
mod pruning;

pub use array::DoubleArray;
pub use edges::child;
pub use faults::{NumberFault, PathFault};
pub use paths::{cell_at, label_code, label_of, leaf_number};

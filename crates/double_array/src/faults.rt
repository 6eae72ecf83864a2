// What the double array refuses.

// Entering a path into a double array, in the order in which it is judged.
#[derive(Clone, Copy, PartialEq, Eq, Debug)]
pub enum PathFault {
    // It is empty, longer than 129 codes, or has a code outside 1 to 257.
    Path,
    // The number is 0, above 2,147,483,647, or has a leaf already.
    Number,
    // The path is held, runs through a leaf, or ends above one.
    Blocked,
    // The placing rule finds no place for one of its codes: make a larger array.
    NoPlace,
}

// Reading the path of a number of a double array, in the order in which it is judged.
#[derive(Clone, Copy, PartialEq, Eq, Debug)]
pub enum NumberFault {
    // The number has no leaf in the index.
    Unknown,
    // The output is shorter than the path: lend one of 129 places.
    Short,
}

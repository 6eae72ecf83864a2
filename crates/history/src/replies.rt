// What the calls answer.
use link_table::Triple;

// A triple between two words: their numbers and the link number.
#[derive(Clone, Copy, PartialEq, Eq, Debug)]
pub struct Link {
    pub x: u16,
    pub y: u16,
    pub number: u32,
}

// What is filed under a link number: the triple that has it, and the record last written.
#[derive(Clone, Copy, PartialEq, Eq, Debug)]
pub struct Reading<R> {
    pub triple: Triple,
    pub record: R,
}

// What `figures` counts: the present triples, and the cells in use in the table's array.
#[derive(Clone, Copy, PartialEq, Eq, Debug)]
pub struct Figures {
    pub triples: usize,
    pub cells: usize,
}

// What an accepted call answers, whichever it was.
#[derive(Clone, Copy, PartialEq, Eq, Debug)]
pub enum Reply<R> {
    // Add and tie: the words' numbers and the new link number.
    Linked(Link),
    // Delete: the link number that the triple had.
    Deleted(u32),
    // Find: the words' numbers and the link number, or none.
    Found(Option<Link>),
    // Read: the triple and the record of the number.
    Read(Reading<R>),
    // Change: the record was written.
    Changed,
    // List: how many rows were written.
    Listed(usize),
    // Figures.
    Counted(Figures),
}

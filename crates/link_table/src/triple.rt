// What a link ties. The words of a triple, as a call asks about them, are a type of their own
// (`WordTriple`): one type over both would be named with its parameter in every definition.

// The number of the first word, the relation, and the number of the second word.
#[derive(Clone, Copy, PartialEq, Eq, Debug)]
pub struct Triple {
    pub x: u16,
    pub relation: u8,
    pub y: u16,
}

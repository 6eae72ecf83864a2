// What is listed of a link.

// One line of a listing: the relation, the number of the second word and the link number.
#[derive(Clone, Copy, Default, PartialEq, Eq, Debug)]
pub struct LinkRow {
    pub relation: u8,
    pub y: u16,
    pub link: u32,
}

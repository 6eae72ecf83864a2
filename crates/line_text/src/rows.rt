// The rows of a listing, of which at most 100 are held.
ghost use Rattle.std.specs.Prelude.{◌≡◌, ◌≤◌, length};

// The most rows that a listing has.
pub const ROW_PLACES: usize = 100;

// A relation, the number of a second word, and a count.
#[derive(Clone, Copy, Default, PartialEq, Eq, Debug)]
pub struct LineRow {
    pub relation: u8,
    pub y: u16,
    pub count: u32,
}

// An array with a length beside it: an answer is `Copy`, and a vector of the library is not.
#[derive(Clone, Copy)]
pub struct LineRows {
    pub(super) rows: [LineRow; ROW_PLACES],
    pub(super) count: usize,
    ghost places: { length rows ≡ 100 },
    ghost few: { count ≤ 100 },
}

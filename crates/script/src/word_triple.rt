// Triples of words: two words, and the relation that is asked of them. Such a triple is what a caller asks
// about, and knows no script, no list and no number; that of numbers stands in crate `link_table`.
ghost use Rattle.std.specs.Prelude.{◌≡◌, ⊤};

use std::alloc::AllocError;

// X, the relation and Y, as a call asks about them: X stands to Y in the relation.
#[derive(PartialEq, Eq, Debug)]
pub struct WordTriple<'a, S> {
    pub x: &'a [S],
    pub relation: u8,
    pub y: &'a [S],
}

// By hand, since a derive would clone it only where the symbols themselves can be cloned.
impl<'a, S> Clone for WordTriple<'a, S> {
    ghost is_clone = { λ words copy. copy ≡ words };

    ghost is_infallible = { λ _. ⊤ };

    fn clone(&self) -> Result<Self, AllocError> {
        Ok(*self)
    }
}

impl<'a, S> Copy for WordTriple<'a, S> {}

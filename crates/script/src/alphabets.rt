// The three scripts: byte text, 16-bit characters and morpheme signs.
ghost use Rattle.std.specs.Prelude.{[], ◌∷◌};
ghost use Rattle.script.specs.Alphabets.{upper_first, sign};
ghost use Rattle.std.proofs.Common.{rules};

use super::Script;

// Byte text: each byte is its own label.
impl Script for u8 {
    ghost width = { 1 };

    ghost spelling = { λ x. x ∷ [] };

    ghost narrow = { Prim.search rules };

    ghost even = { Prim.search rules };

    ghost apart = { Prim.search rules };

    type Labels = [u8; 1];

    fn spell(&self) -> [u8; 1] {
        [*self]
    }
}

// 16-bit characters: the upper byte, then the lower.
impl Script for u16 {
    ghost width = { 2 };

    ghost spelling = { upper_first };

    ghost narrow = { Prim.search rules };

    ghost even = { Prim.search rules };

    ghost apart = { Prim.search rules };

    type Labels = [u8; 2];

    fn spell(&self) -> [u8; 2] {
        self.to_be_bytes()
    }
}

// What kind of morpheme a sign stands for.
#[derive(Clone, Copy, PartialEq, Eq, Debug)]
pub enum MorphemeClass {
    Prefix = 1,
    Adjective = 2,
    Suffix = 3,
    AdjectivalNoun = 4,
    Noun = 5,
    Verb = 6,
    Other = 7,
}

// A morpheme: its class and the number of its form.
#[derive(Clone, Copy, PartialEq, Eq, Debug)]
pub struct MorphemeSign {
    pub class: MorphemeClass,
    pub form: u16,
}

// Morpheme signs: the class, then the form, its upper byte first.
impl Script for MorphemeSign {
    ghost width = { 3 };

    ghost spelling = { sign };

    ghost narrow = { Prim.search rules };

    ghost even = { Prim.search rules };

    ghost apart = { Prim.search rules };

    type Labels = [u8; 3];

    fn spell(&self) -> [u8; 3] {
        let [upper, lower] = self.form.to_be_bytes();
        [self.class as u8, upper, lower]
    }
}

// What a plain list holds.
ghost use Rattle.std.specs.Prelude.{◌≡◌, ◌≤◌, take, vec_len, sum};
ghost use Rattle.lexicon.specs.Rolls.{Sized, Distinct};
ghost use Rattle.plain_list.specs.Cuts.{cut};

// The arrays are given once, each with how much of it is used beside it; what stands past that stays,
// a rule of the project.
#[derive(Drop)]
pub struct PlainList {
    // The spellings end to end, and from `used` on what was there before.
    pub(super) bytes: Vec<u8>,
    // The lengths of the words, and from `count` on what was there before.
    pub(super) lengths: Vec<u8>,
    pub(super) count: usize,
    pub(super) used: usize,
    ghost within: { count ≤ vec_len lengths },
    ghost ended: { used ≡ sum (take count lengths.items) },
    ghost inside: { used ≤ vec_len bytes },
    ghost short: { used ≤ 8388608 },
    ghost few: { count ≤ 65535 },
    ghost sized: { Sized (cut (take count lengths.items) bytes.items) },
    ghost apart: { Distinct (cut (take count lengths.items) bytes.items) },
}

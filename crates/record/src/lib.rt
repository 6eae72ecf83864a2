// Records: what a ranker files under a link, and which records are sound.
//
// This crate knows tallies and scores. It knows nothing of tables, words or links.
// The rules stand in docs/RECORDS.md.
#![tactic(auto)]

ghost use Rattle.std.specs.Prelude.{◌≡◌, Bool, ◌&&◌};
ghost use Rattle.std.specs.Float.Ieee.{le};
ghost use Rattle.record.specs.Soundness.{sound_tally, sound_score, NanUnsound};

mod meanings;

pub use meanings::meaning;

// What can be filed under a link: a type that has a test, which looks at the record's value and at nothing else.
pub trait Record: Copy {
    ghost sound: { Self → Bool };

    // Whether the record passes the test.
    fn is_sound(&self) -> bool
        ensures { result ≡ sound self.now };
}

// How often a relation was seen.
#[derive(Clone, Copy, PartialEq, Eq, Debug)]
pub struct Tally {
    pub count: u32,
}

// How likely a relation is, what it costs, or between which chances it lies.
#[derive(Clone, Copy, Debug)]
pub enum Score {
    Chance(f64),
    Cost(f64),
    Band(f64, f64),
}

// The test of a tally: 1 ≤ count ≤ 1,000,000,000.
impl Record for Tally {
    ghost sound = { sound_tally };

    fn is_sound(&self) -> bool {
        1 <= self.count && self.count <= 1_000_000_000
    }
}

// The number lies from low to high; a NaN never does.
fn lies(x: f64, low: f64, high: f64) -> bool
    ensures { result ≡ (le low x && le x high) }
{
    low <= x && x <= high
}

// The test of a score, by its case: 0 ≤ chance ≤ 1, or 0 ≤ cost ≤ 1,000,000, or 0 ≤ low ≤ high ≤ 1.
impl Record for Score {
    ghost sound = { sound_score };

    fn is_sound(&self) -> bool {
        match *self {
            Score::Chance(chance) => lies(chance, 0.0, 1.0),
            Score::Cost(cost) => lies(cost, 0.0, 1_000_000.0),
            Score::Band(low, high) => lies(low, 0.0, high) && high <= 1.0,
        }
    }
}

// Whether the score passes the test. A NaN is within no bounds, so a score that has one never does.
#[tactic(auto, using(crate::proofs::Floats::nan_unsound))]
pub fn is_sound_score(score: Score) -> bool
    ensures answer { result ≡ sound_score score }
    ensures nan { NanUnsound }
{
    score.is_sound()
}

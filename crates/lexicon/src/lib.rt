// Word lists: what a list of spelled words answers, whatever it is built of.
//
// This crate knows the roll, which is a list's words in the order of their numbers, and two interfaces:
// `ReadableList`, by which a list is asked, and on top of it `GrowingList`, by which a word is entered.
// It knows nothing of arrays, cells or scripts. The rules stand in docs/WORD_LISTS.md.
#![tactic(auto)]

ghost use Rattle.std.specs.Prelude.{◌≡◌, ℕ, ◌≤◌, Bool, ◌&&◌, List, length, IfOk, nat_le};
ghost use Rattle.lexicon.specs.Rolls.{Lawful, label_sized};
ghost use Rattle.lexicon.specs.Answers.{find_answer, word_answer, word_output, enter_answer, EnterChanges};

// A list has at most this many words: their numbers, from 1 up, are 16-bit numbers.
pub const MAX_WORDS: usize = 65_535;

// A call of a word list.
#[derive(Clone, Copy, PartialEq, Eq, Debug)]
pub enum ListFault {
    // The spelling has no label or more than 128: hand in a word of the right length.
    WordLength,
    // No word of the list has the number.
    UnknownWord,
    // The word is new and the list has no room for it: make a larger list.
    NoRoom,
    // The output is shorter than the word: lend one of 128 bytes.
    OutputTooShort,
}

pub trait ReadableList {
    // The list's words, each spelled in labels, in the order of their numbers: the roll.
    ghost roll: { Self → List (List ℕ) };

    // How many words the list has. The roll is lawful: at most 65,535 words, each of 1 to 128 labels,
    // no two alike.
    fn count(&self) -> u16
        ensures count { result ≡ length (roll self.now) }
        ensures lawful { Lawful (roll self.now) };

    // The number of a spelled word, or none where the list lacks it.
    // Refused: an empty row of labels, and one of more than 128.
    fn find(&self, word: &[u8]) -> Result<Option<u16>, ListFault>
        ensures { result ≡ find_answer (roll self.now) word.now };

    // Writes the word of a number from the start of the output and answers how many labels it has.
    // A number that no word has is refused, then an output that is too short; nothing is written then.
    fn spell(&self, number: u16, out: &mut [u8]) -> Result<usize, ListFault>
        ensures answer { result ≡ word_answer (roll self.now) number out.old }
        ensures output { out.new ≡ word_output (roll self.now) number out.old }
        ensures within { IfOk result (λ n. n ≤ length out.old) };
}

pub trait GrowingList: ReadableList {
    // There is room for the new word.
    ghost room: { Self → List ℕ → Bool };

    // What the list's own arrays hold after the new word is entered, beside what they held before.
    ghost enters: { Self → List ℕ → Self → Type 0 };

    // Enters a spelled word and answers its number: the one that it has, or else the next, as it is put
    // at the end of the roll. Refused, in this order: an empty row of labels or one of more than 128, a new
    // word without room; unless a new word is entered, the list stays as it was.
    fn enter(&mut self, word: &[u8]) -> Result<u16, ListFault>
        ensures answer { result ≡ enter_answer (Self.roll self.old) (room self.old word.now) word.now }
        ensures after { EnterChanges Self.roll room enters self.old word.now self.new }
        ensures lawful { Lawful (Self.roll self.new) };
}

// The spelling has 1 to 128 labels.
pub fn has_label_size(word: &[u8]) -> bool
    ensures { result ≡ label_sized word.now }
{
    1 <= word.len() && word.len() <= 128
}

// Of so many words, one has the number.
pub fn is_numbered(words: usize, number: u16) -> bool
    ensures { result ≡ (nat_le 1 number && nat_le number words) }
{
    1 <= number && number as usize <= words
}

// Scripts: symbols, each spelled in labels, and words of symbols.
//
// This crate knows how a symbol is spelled and how a word of 1 to 32 symbols becomes at most 128
// labels. It knows nothing of lists, cells or numbers of words; what stands above it uses the
// spelled word and that no two words are spelled alike, and never how many labels a symbol has.
// The rules stand in docs/SCRIPTS.md.
#![tactic(auto)]

ghost use Rattle.std.specs.Prelude.{◌≡◌, ℕ, ◌≤◌, List, length, IfOk, OnOk, OnErr};
ghost use Rattle.std.specs.Result.{result_map_both};
ghost use Rattle.script.specs.Words.{word_sized, spell_answer, WordsApart};

use arrayvec::ArrayVec;
use std::convert::AsSlice;

mod alphabets;
mod meanings;
mod word_triple;

pub use alphabets::{MorphemeClass, MorphemeSign};
pub use meanings::{meaning, meaning_of_copies};
pub use word_triple::WordTriple;

// A script is told by the type of its symbols, and means the labels that each of them gets.
pub trait Script {
    // In how many labels every symbol is spelled.
    ghost width: { ℕ };

    // The labels of a symbol, in their order.
    ghost spelling: { Self → List ℕ };

    // As many labels as a symbol has.
    type Labels: AsSlice<u8> + Copy;

    // The labels of the symbol.
    fn spell(&self) -> Self::Labels
        ensures { Self.Labels.items result ≡ spelling self.now };

    ghost narrow: { (1 ≤ width) × (width ≤ 4) };

    ghost even: { (x : Self) → length (spelling x) ≡ width };

    ghost apart: { (x y : Self) → spelling x ≡ spelling y → x ≡ y };
}

// Spelling a word: the word has no symbol or more than 32.
#[derive(Clone, Copy, PartialEq, Eq, Debug)]
pub enum SpellFault {
    WordLength,
}

// The word has 1 to 32 symbols.
pub fn has_word_size<S: Script>(word: &[S]) -> bool
    ensures { result ≡ word_sized word.now }
{
    1 <= word.len() && word.len() <= 32
}

// Spells a word into a vector that is lent: it holds the labels of the word's symbols then, one symbol's after
// another's. A word of no symbol or of more than 32 is refused, and the vector stays as it was.
pub fn spell_into<S: Script>(word: &[S], labels: &mut ArrayVec<u8, 128>) -> Result<(), SpellFault>
    ensures answer { result_map_both (λ _. labels.new.items) (λ e. e) result ≡ spell_answer S.Script.spelling word.now }
    ensures kept { OnErr result (labels.new.items ≡ labels.old.items) }
    ensures sized { OnOk result ((1 ≤ length labels.new.items) × (length labels.new.items ≤ 128)) }
    ensures apart { WordsApart S.Script.spelling }
{
    if !has_word_size(word) {
        return Err(SpellFault::WordLength);
    }
    labels.clear();
    for symbol in word {
        let spelling = symbol.spell();
        // 32 symbols of at most 4 labels fit.
        labels.try_extend_from_slice(spelling.as_slice()).unwrap();
    }
    Ok(())
}

// The labels of a word, those of one symbol after another. A word of no symbol or of more than 32 is
// refused.
pub fn spell_word<S: Script>(word: &[S]) -> Result<ArrayVec<u8, 128>, SpellFault>
    ensures answer { result_map_both (λ v. v.items) (λ e. e) result ≡ spell_answer S.Script.spelling word.now }
    ensures sized { IfOk result (λ v. (1 ≤ length v.items) × (length v.items ≤ 128)) }
    ensures apart { WordsApart S.Script.spelling }
{
    let mut labels = ArrayVec::new();
    spell_into(word, &mut labels)?;
    Ok(labels)
}

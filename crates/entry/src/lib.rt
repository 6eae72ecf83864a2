// Entries: words of any script, entered into any growing list, and what is said of each.
//
// This crate knows scripts and lists by their interfaces, and nothing of arrays or cells.
// The rules stand in docs/WORD_LISTS.md, "Entering a word of a script".
#![tactic(auto)]

ghost use Rattle.std.specs.Prelude.{◌≡◌, ◌≤◌, Some};
ghost use Rattle.std.specs.Option.{option_map};
ghost use Rattle.lexicon.specs.Growths.{growth_of};
ghost use Rattle.lexicon.specs.Rolls.{Lawful};
ghost use Rattle.entry.specs.Entries.{entry_in, EntryLeaves, KeepsNumbers, labels_at, label_total, text_read, asked_of, reply_of, reply_text};

mod meanings;

use arrayvec::ArrayVec;
use lexicon::{GrowingList, ReadableList};
pub use meanings::meaning;
use refusal::{Refusal, Report};
use script::{Script, spell_into};
use std::fmt;

// The number of a word that was entered, and whether the list had it before.
#[derive(Clone, Copy, PartialEq, Eq, Debug)]
pub enum WordEntry {
    New(u16),
    Known(u16),
}

// Enters a word of symbols and answers its number. A word of no symbol or of more than 32 is
// refused, then a new word for which the list has no room; the list is then as it was.
// Whatever comes, no word that the list had gets another number.
pub fn enter_word<S: Script, L: GrowingList>(list: &mut L, word: &[S]) -> Result<WordEntry, Refusal>
    ensures answer { result ≡ entry_in S.Script.spelling L.ReadableList.roll (growth_of L.GrowingList) list.old word.now }
    ensures after { EntryLeaves S.Script.spelling L.ReadableList.roll (growth_of L.GrowingList) list.old word.now list.new }
    ensures numbers { KeepsNumbers S.Script.spelling (L.ReadableList.roll list.old) word.now (L.ReadableList.roll list.new)
        result }
{
    let mut labels = ArrayVec::new();
    spell_into(word, &mut labels)?;
    let before = list.count();
    let number = list.enter(labels.as_slice())?;
    if number > before {
        Ok(WordEntry::New(number))
    } else {
        Ok(WordEntry::Known(number))
    }
}

// How many labels the word of a number has; 0 where no word has the number. A list spells into an
// output that it is lent: a rule of the project.
fn label_count<L: ReadableList>(list: &L, number: u16) -> usize
    requires { Lawful (L.ReadableList.roll list.now) }
    ensures few { result ≤ 128 }
    ensures labels { result ≡ labels_at (L.ReadableList.roll list.now) number }
{
    let mut word = [0u8; 128];
    list.spell(number, &mut word).unwrap_or(0)
}

// How many labels the words of the list have together.
pub fn labels_held<L: ReadableList>(list: &L) -> usize
    ensures { result ≡ label_total (L.ReadableList.roll list.now) }
{
    // A loop: of a chain's `sum` the bound is not proved (tried).
    let mut labels = 0usize;
    for index in 0..list.count() {
        labels += label_count(list, index + 1);
    }
    labels
}

// The text of a line that was read up to its line feed, or to the end of the input where the last
// line has none; none where nothing was left to read.
pub fn line_text(read: &[u8]) -> Option<&[u8]>
    ensures { option_map (λ x. x.now) result ≡ text_read read.now }
{
    match read {
        [] => None,
        [text @ .., b'\n'] => Some(text),
        _ => Some(read),
    }
}

// The beginning that a line asks for, after its question mark; none of a line that has none.
pub fn beginning_of(line: &[u8]) -> Option<&[u8]>
    ensures { option_map (λ x. x.now) result ≡ asked_of line.now }
{
    match line {
        [b'?', beginning @ ..] => Some(beginning),
        _ => None,
    }
}

// What is printed for one line of words: the entry, or the report of the refusal.
#[derive(Clone, Copy, PartialEq, Eq, Debug)]
pub struct EntryReply(pub Result<WordEntry, Report>);

// The reply to what entering a word answered.
impl From<Result<WordEntry, Refusal>> for EntryReply {
    ghost from_gives = { λ answer r. r ≡ reply_of answer };

    fn from(answer: Result<WordEntry, Refusal>) -> EntryReply {
        EntryReply(answer.map_err(|refusal| refusal.report()))
    }
}

// A reply is printed as the number with `new` or `held`, or as `no` with the report.
impl fmt::Display for EntryReply {
    ghost output = { λ r. Some (reply_text r) };

    fn fmt<W: fmt::Write>(&self, f: &mut fmt::Formatter<W>) -> fmt::Result {
        match self.0 {
            Ok(WordEntry::New(number)) => write!(f, "{number} new"),
            Ok(WordEntry::Known(number)) => write!(f, "{number} held"),
            Err(report) => write!(f, "no {report}"),
        }
    }
}

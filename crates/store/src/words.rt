// From words of symbols to numbers of words. A word is spelled where a list is asked for it: its labels
// stay in the place where they were put together.
ghost use Rattle.std.specs.Prelude.{◌≡◌, true};
ghost use Rattle.script.specs.Words.{word_sized, spelled};
ghost use Rattle.lexicon.specs.Rolls.{number_of};
ghost use Rattle.lexicon.specs.Growths.{growth_of};
ghost use Rattle.store.specs.Words.{SizeTested, WordsTested, NewTested, KnownWords, EnteredWord};

use arrayvec::ArrayVec;
use lexicon::{GrowingList, ReadableList};
use link_table::Triple;
use record::Record;
use refusal::{Refusal, Side};
use script::{Script, WordTriple, has_word_size, spell_into};

// The word on a side has 1 to 32 symbols, or is refused.
pub(super) fn test_size<S: Script>(word: &[S], side: Side) -> Result<(), Refusal>
    ensures { SizeTested word.now side result }
{
    if !has_word_size(word) {
        return Err(Refusal::WordLength(side));
    }
    Ok(())
}

// The words and the relation of a triple, before a word is spelled. Refused, in this order: X or Y has the
// wrong length, the relation is 0.
pub(super) fn test_words<S: Script>(words: WordTriple<'_, S>) -> Result<(), Refusal>
    ensures { WordsTested words.entry.x.now words.entry.y.now words.entry.relation result }
{
    test_size(words.x, Side::First)?;
    test_size(words.y, Side::Second)?;
    if words.relation == 0 {
        return Err(Refusal::RelationZero);
    }
    Ok(())
}

// The words and the record of a new triple: as test_words, and then a record that is not sound is
// refused.
pub(super) fn admit<S: Script, R: Record>(
    words: WordTriple<'_, S>,
    record: &R,
) -> Result<(), Refusal>
    ensures { NewTested words.entry.x.now words.entry.y.now words.entry.relation (R.Record.sound «record».now) result }
{
    test_words(words)?;
    if !record.is_sound() {
        return Err(Refusal::RecordUnsound);
    }
    Ok(())
}

// The number of a word of the right length, or none.
pub(super) fn number_in<S: Script, L: ReadableList>(list: &L, word: &[S]) -> Option<u16>
    requires { word_sized word.now ≡ true }
    ensures { result ≡ number_of (L.ReadableList.roll list.now) (spelled S.Script.spelling word.now) }
{
    let mut labels = ArrayVec::new();
    spell_into(word, &mut labels).ok()?;
    list.find(labels.as_slice()).unwrap_or(None)
}

// The triple of two words that the list has. Refused, in this order: X or Y is not in the list.
pub(super) fn known_triple<S: Script, L: ReadableList>(
    list: &L,
    words: WordTriple<'_, S>,
) -> Result<Triple, Refusal>
    requires x { word_sized words.x.now ≡ true }
    requires y { word_sized words.y.now ≡ true }
    ensures { KnownWords (L.ReadableList.roll list.now) S.Script.spelling words.entry.x.now words.entry.y.now
        words.entry.relation result }
{
    let x = number_in(list, words.x).ok_or(Refusal::UnknownWord(Side::First))?;
    let y = number_in(list, words.y).ok_or(Refusal::UnknownWord(Side::Second))?;
    let relation = words.relation;
    Ok(Triple { x, relation, y })
}

// Enters a word of the right length, on a side, and answers its number. A new word without room is refused.
pub(super) fn enter<S: Script, L: GrowingList>(
    list: &mut L,
    word: &[S],
    side: Side,
) -> Result<u16, Refusal>
    requires { word_sized word.now ≡ true }
    ensures { EnteredWord L.ReadableList.roll (growth_of L.GrowingList) list.old (spelled S.Script.spelling word.now)
        side result list.new }
{
    let mut labels = ArrayVec::new();
    spell_into(word, &mut labels).map_err(|fault| Refusal::of_spelling(fault, side))?;
    list.enter(labels.as_slice())
        .map_err(|fault| Refusal::of_list(fault, side))
}

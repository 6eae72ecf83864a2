// The calls that change the table, the list or the records. What a call needs of the list and the
// records it is lent side by side, and the record of a new triple stands beside its words: a rule of
// the project.
ghost use Rattle.std.specs.Prelude.{◌≡◌};
ghost use Rattle.lexicon.specs.Growths.{growth_of};
ghost use Rattle.history.specs.Kits.{kit_of, state_of};
ghost use Rattle.history.specs.Calls.{Adds, Ties, Deletes, Changes};
ghost use Rattle.store.specs.Links.{word_kit, record_kit};

use super::linking::write_record;
use super::table::RelationTable;
use super::words::{admit, enter, known_triple, test_words};
use history::Link;
use lexicon::{GrowingList, ReadableList};
use link_table::Triple;
use record::Record;
use refusal::{Refusal, Side};
use script::{Script, WordTriple};

impl RelationTable {
    // Puts X into the list, next Y, and last their triple with its record, and answers the numbers. Refused, in this
    // order: X or Y has no symbol or more than 32, the relation is 0, the record is not sound, the
    // list has no room for X or for Y, the triple is present, all link numbers are held, its code
    // has no place. A refusal takes no word back that is in by then.
    pub fn add<S: Script, L: GrowingList, R: Record>(
        &mut self,
        list: &mut L,
        records: &mut [R],
        words: WordTriple<'_, S>,
        record: R,
    ) -> Result<Link, Refusal>
        ensures { Adds (kit_of S.Script L.ReadableList R.Record) (growth_of L.GrowingList)
            (state_of list.old self.old records.old) words.entry.x.now words.entry.y.now
            words.entry.relation «record» result (state_of list.new self.new records.new) }
    {
        admit(words, &record)?;
        let x = enter(list, words.x, Side::First)?;
        let y = enter(list, words.y, Side::Second)?;
        let relation = words.relation;
        self.join(records, Triple { x, relation, y }, record)
    }

    // Enters a triple between words that the list has, and answers the numbers. Refused, in this
    // order: X or Y has no symbol or more than 32, the relation is 0, the record is not sound, X or Y
    // is not in the list, the triple is present, all link numbers are held, its code has no place.
    pub fn tie<S: Script, L: ReadableList, R: Record>(
        &mut self,
        list: &L,
        records: &mut [R],
        words: WordTriple<'_, S>,
        record: R,
    ) -> Result<Link, Refusal>
        ensures { Ties (kit_of S.Script L.ReadableList R.Record) (state_of list.now self.old records.old)
            words.entry.x.now words.entry.y.now words.entry.relation «record» result
            (state_of list.now self.new records.new) }
    {
        admit(words, &record)?;
        let triple = known_triple(list, words)?;
        self.join(records, triple, record)
    }

    // Takes a triple out and answers the link number that it had. Refused, in this order: X or Y has
    // no symbol or more than 32, the relation is 0, X or Y is not in the list, the triple is not
    // present.
    pub fn delete<S: Script, L: ReadableList>(
        &mut self,
        list: &L,
        words: WordTriple<'_, S>,
    ) -> Result<u32, Refusal>
        ensures { Deletes (word_kit S.Script L.ReadableList) list.now self.old words.entry.x.now words.entry.y.now
            words.entry.relation result self.new }
    {
        test_words(words)?;
        let triple = known_triple(list, words)?;
        let number = self.links.take(triple)?;
        Ok(number)
    }

    // Gives the triple of the number another record; all else stays. Refused, in this order: no present triple
    // has the number, the record is not sound.
    pub fn change<R: Record>(
        &mut self,
        records: &mut [R],
        link: u32,
        record: R,
    ) -> Result<(), Refusal>
        ensures records { Changes (record_kit R.Record) self.old records.old link «record» result records.new }
        ensures table { self.new ≡ self.old }
    {
        if self.links.triple_of(link).is_none() {
            return Err(Refusal::UnknownLink);
        }
        if !record.is_sound() {
            return Err(Refusal::RecordUnsound);
        }
        write_record(records, link, record);
        Ok(())
    }
}

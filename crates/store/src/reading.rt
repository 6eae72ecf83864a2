// The calls that change nothing.
ghost use Rattle.std.specs.Prelude.{◌≡◌, ◌-◌, ◌≤◌};
ghost use Rattle.std.specs.List.{slice_get};
ghost use Rattle.history.specs.Calls.{find_of, read_of, Lists, figures_of};
ghost use Rattle.store.specs.Links.{word_kit, link_answer};

use super::table::RelationTable;
use super::words::{known_triple, number_in, test_size, test_words};
use history::{Figures, Link, Reading};
use lexicon::ReadableList;
use link_table::Triple;
use listing::{LinkRow, list_links};
use record::Record;
use refusal::{Refusal, Side};
use script::{Script, WordTriple};

// The record of a link number, where the array reaches it.
fn record_at<R: Record>(records: &[R], link: u32) -> Option<R>
    requires { 1 ≤ link }
    ensures { result ≡ slice_get records.now (link - 1) }
{
    let place = link as usize - 1;
    records.get(place).copied()
}

impl RelationTable {
    // The numbers of both words and of their link by the relation; none if the list lacks one of the words, or
    // the table the triple. Refused, in this order: X or Y has no symbol or more than 32, the relation is 0.
    pub fn find<S: Script, L: ReadableList>(
        &self,
        list: &L,
        words: WordTriple<'_, S>,
    ) -> Result<Option<Link>, Refusal>
        ensures { result ≡ find_of (word_kit S.Script L.ReadableList) list.now self.now words.entry.x.now
            words.entry.y.now words.entry.relation }
    {
        test_words(words)?;
        // By `let else`, here and below: none is the answer then and no refusal, which `?` cannot say.
        let Some(x) = number_in(list, words.x) else {
            return Ok(None);
        };
        let Some(y) = number_in(list, words.y) else {
            return Ok(None);
        };
        let relation = words.relation;
        let number = self.links.link_number(Triple { x, relation, y });
        Ok(number.map(|number| Link { x, y, number }))
    }

    // The numbers of both words and of their link, of a triple that is present. Refused, in this order:
    // X or Y has no symbol or more than 32, the relation is 0, X or Y is not in the list, the triple is
    // not present.
    pub fn link_of<S: Script, L: ReadableList>(
        &self,
        list: &L,
        words: WordTriple<'_, S>,
    ) -> Result<Link, Refusal>
        ensures { result ≡ link_answer (word_kit S.Script L.ReadableList) list.now self.now words.entry.x.now
            words.entry.y.now words.entry.relation }
    {
        test_words(words)?;
        let triple = known_triple(list, words)?;
        let number = self.links.link_number(triple).ok_or(Refusal::TripleAbsent)?;
        Ok(Link {
            x: triple.x,
            y: triple.y,
            number,
        })
    }

    // The triple that has the link number, and its record. Refused: no present triple has it.
    pub fn read<R: Record>(&self, records: &[R], link: u32) -> Result<Reading<R>, Refusal>
        ensures { result ≡ read_of self.now records.now link }
    {
        let triple = self.links.triple_of(link).ok_or(Refusal::UnknownLink)?;
        let record = record_at(records, link).ok_or(Refusal::UnknownLink)?;
        Ok(Reading { triple, record })
    }

    // Fills the first places of `out` with a row for each present triple that begins with X, those of one
    // relation or, where 0 is asked for, of any, and answers how many rows that are. They rise by relation,
    // and by Y's number within a relation. Refused, in this order: X has no symbol or more than 32, X is
    // not in the list, `out` is too short; nothing is written then.
    pub fn list<S: Script, L: ReadableList>(
        &self,
        list: &L,
        x: &[S],
        relation: u8,
        out: &mut [LinkRow],
    ) -> Result<usize, Refusal>
        ensures { Lists (word_kit S.Script L.ReadableList) list.now self.now x.now relation out.old result out.new }
    {
        test_size(x, Side::First)?;
        let number = number_in(list, x).ok_or(Refusal::UnknownWord(Side::First))?;
        list_links(&self.links, number, relation, out).ok_or(Refusal::OutputTooShort)
    }

    // Counts the present triples, and the cells in use in the table's array.
    pub fn figures(&self) -> Figures
        ensures { result ≡ figures_of self.now }
    {
        Figures {
            triples: self.links.count(),
            cells: self.links.in_use(),
        }
    }
}

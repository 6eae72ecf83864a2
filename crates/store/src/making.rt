// Making the link table of a store.
ghost use Rattle.std.specs.Prelude.{◌≡◌, [], length, vec_len};
ghost use Rattle.link_table.specs.Tables.{IsNewTable};
ghost use Rattle.history.specs.Kits.{kit_of, state_of};
ghost use Rattle.history.specs.Runs.{Reached};
ghost use Rattle.history.specs.Laws.{Law};

use super::table::RelationTable;
use cells::Cell;
use lexicon::ReadableList;
use link_table::LinkTable;
use record::Record;
use script::Script;

impl RelationTable {
    // The link table of a new store over a word list and a record array, which stay as they are. The
    // cell array and the link index may hold anything. The store holds no triple, whatever words the
    // list has, and its history begins here.
    pub fn new<S: Script, L: ReadableList, R: Record>(
        list: &L,
        records: &[R],
        cells: Vec<Cell>,
        index: Vec<u32>,
    ) -> RelationTable
        ensures made { IsNewTable (vec_len cells) (vec_len index) (length records.now) result }
        ensures start { Reached (kit_of S.Script L.ReadableList R.Record) [] (state_of list.now result records.now) }
        ensures law { Law (kit_of S.Script L.ReadableList R.Record) [] (state_of list.now result records.now) }
    {
        let _ = list.count();
        RelationTable {
            links: LinkTable::new(cells, index, records.len()),
        }
    }

    // The link table in word numbers, with its cells and its index, to look at.
    pub fn links(&self) -> &LinkTable
        ensures { result.now ≡ self.now }
    {
        &self.links
    }
}

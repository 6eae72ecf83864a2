// The listing of a word's links: its present triples by relation and then by the second word's number,
// all of them or those of one upper byte of that number.
//
// This crate knows word numbers, relations and the cells of a link table. It knows nothing of words,
// scripts or records, changes no table and allocates nothing. The rules stand in docs/LINKS.md.
#![tactic(auto)]

mod beginning;
mod row;
mod writing;

ghost use Rattle.members.specs.Lists.{Rises};
ghost use Rattle.output.specs.Written.{Filled};
ghost use Rattle.listing.specs.Rows.{rows_of, ListsExactly, Earlier};

use link_table::LinkTable;
pub use row::LinkRow;
use writing::WordLinks;
pub use writing::list_upper;

// Fills the first places of `out` with a row for each present triple that begins with the word number x and
// has the relation asked for, which 0 stands for all from 1 to 255, and answers how many rows these are.
// Rows rise by their relation, and those of one relation by the second word's number. An `out` with fewer
// places stays as it is, and the answer is none.
pub fn list_links(table: &LinkTable, x: u16, relation: u8, out: &mut [LinkRow]) -> Option<usize>
    ensures output { Filled (rows_of table.now x relation) out.old result out.new }
    ensures members { ListsExactly table.now x relation (rows_of table.now x relation) }
    ensures order { Rises Earlier (rows_of table.now x relation) }
{
    let links = WordLinks { table, x };
    let count = links.list_rows(relation, &mut []);
    if count > out.len() {
        return None;
    }
    Some(links.list_rows(relation, out))
}

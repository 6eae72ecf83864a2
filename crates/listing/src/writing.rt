// Writing rows: those of one upper byte of the second word's number, of one relation, of all relations.
//
// Each walk writes as far as the output has places, and counts on past its end. The output and the
// place in it stay two parameters: of an output that a struct holds, no contract could say what it holds
// when it is given back (tried).
ghost use Rattle.std.specs.Prelude.{◌+◌, ◌*◌, ◌^◌, ◌<◌, ◌≤◌, [], ◌∷◌, Some};
ghost use Rattle.output.specs.Written.{Filled};
ghost use Rattle.listing.specs.Parts.{rows_from, RowsWritten};
ghost use Rattle.listing.specs.Rows.{rows_by, rows_to, rows_of};

use super::beginning::{beginning, leads};
use super::row::LinkRow;
use double_array::label_code;
use link_table::{LinkTable, Triple};

// Writes a row at the place `at`, if the output has it, and answers the next place.
fn place_row(out: &mut [LinkRow], at: usize, line: LinkRow) -> usize
    requires { at < 2 ^ 63 }
    ensures { RowsWritten out.old at (line ∷ []) result out.new }
{
    if at < out.len() {
        out[at] = line;
    }
    at + 1
}

// The links of one word, as they are walked: the table, and the word's number.
#[derive(Clone, Copy)]
pub(super) struct WordLinks<'a> {
    pub(super) table: &'a LinkTable,
    pub(super) x: u16,
}

impl<'a> WordLinks<'a> {
    // Writes the rows by the relation whose second word's number has this upper byte from `at` on,
    // and answers where they end.
    fn list_block(&self, relation: u8, upper: u8, out: &mut [LinkRow], at: usize) -> usize
        requires { at + 256 < 2 ^ 63 }
        ensures { RowsWritten out.old at (rows_from self.now.table.now self.now.x relation (256 * upper) 256) result
            out.new }
    {
        let x = self.x;
        let mut next = at;
        for lower in 0..256 {
            let y = 256 * upper as u16 + lower;
            if let Some(link) = self.table.link_number(Triple { x, relation, y }) {
                next = place_row(out, next, LinkRow { relation, y, link });
            }
        }
        next
    }

    // Writes the rows by the relation from `at` on, and answers where they end. A beginning that leads
    // to no cell is passed over.
    fn list_relation(&self, relation: u8, out: &mut [LinkRow], at: usize) -> usize
        requires { at + 65536 < 2 ^ 63 }
        ensures { RowsWritten out.old at (rows_by self.now.table.now self.now.x relation) result out.new }
    {
        let [first, second, third] = beginning(self.x, relation);
        if !leads(self.table, &[first, second, third]) {
            return at;
        }
        let mut next = at;
        for upper in 0..=255u8 {
            if leads(self.table, &[first, second, third, label_code(upper)]) {
                next = self.list_block(relation, upper, out, next);
            }
        }
        next
    }

    // Writes the rows by the relations 1 to 255 from the start of the output, and answers where they
    // end.
    fn list_all(&self, out: &mut [LinkRow]) -> usize
        ensures { RowsWritten out.old 0 (rows_to self.now.table.now self.now.x 255) result out.new }
    {
        let mut next = 0;
        for before in 0..255 {
            next = self.list_relation(before + 1, out, next);
        }
        next
    }

    // Writes the rows by the relation, 0 for all, from the start of the output, and answers where they
    // end.
    pub(super) fn list_rows(&self, relation: u8, out: &mut [LinkRow]) -> usize
        ensures { RowsWritten out.old 0 (rows_of self.now.table.now self.now.x relation) result out.new }
    {
        if relation == 0 {
            self.list_all(out)
        } else {
            self.list_relation(relation, out, 0)
        }
    }
}

// Writes the rows of x by the relation whose second word's number has this upper byte into `out` from
// its start, and answers how many there are, 256 at most.
pub fn list_upper(
    table: &LinkTable,
    x: u16,
    relation: u8,
    upper: u8,
    out: &mut [LinkRow; 256],
) -> usize
    ensures output { Filled (rows_from table.now x relation (256 * upper) 256) out.old (Some result) out.new }
    ensures few { result ≤ 256 }
{
    let [first, second, third] = beginning(x, relation);
    if leads(table, &[first, second, third, label_code(upper)]) {
        WordLinks { table, x }.list_block(relation, upper, out, 0)
    } else {
        0
    }
}

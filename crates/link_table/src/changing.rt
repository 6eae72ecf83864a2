// Making a link table, and putting and taking triples.
ghost use Rattle.std.specs.Prelude.{vec_len};
ghost use Rattle.link_table.specs.Tables.{IsNewTable, Puts, Takes};

use super::codes::write_code;
use super::faults::LinkFault;
use super::numbers::vacant;
use super::table::LinkTable;
use super::triple::Triple;
use cells::Cell;
use double_array::DoubleArray;

impl LinkTable {
    // The most link numbers that a table hands out.
    pub const MAX_LINKS: usize = 1_048_575;

    // A table without a triple over a cell array and a link index, which may hold anything, for so
    // many records. Link numbers go up to the shorter of index and records; the rest of the index is
    // given up, and so are cells past 1,048,576.
    pub fn new(cells: Vec<Cell>, mut index: Vec<u32>, records: usize) -> LinkTable
        ensures { IsNewTable (vec_len cells) (vec_len index) records result }
    {
        index.truncate(records.min(Self::MAX_LINKS));
        LinkTable {
            array: DoubleArray::new(cells, index),
            count: 0,
            cursor: 0,
        }
    }

    // Enters a new triple under a number that is free, and answers the number.
    // Refused, in this order: the triple is present, all numbers are held, its code has no place.
    pub fn put(&mut self, triple: Triple) -> Result<u32, LinkFault>
        ensures { Puts self.old triple result self.new }
    {
        let path = write_code(triple);
        if self.array.number_at(&path).is_some() {
            return Err(LinkFault::TriplePresent);
        }
        if self.count == self.limit() {
            return Err(LinkFault::NumbersHeld);
        }
        // By `let else`, here and in `take`: tried by `ok_or` and `?`, and the proof did not close.
        let Some(place) = vacant(self.array.index(), self.cursor) else {
            return Err(LinkFault::NumbersHeld);
        };
        let number = place as u32 + 1;
        self.array.enter(&path, number)?;
        self.count += 1;
        self.cursor = place + 1;
        Ok(number)
    }

    // Takes a triple out and answers the number that it had. Refused where it is not present.
    pub fn take(&mut self, triple: Triple) -> Result<u32, LinkFault>
        ensures { Takes self.old triple result self.new }
    {
        let path = write_code(triple);
        let Some(number) = self.array.remove(&path) else {
            return Err(LinkFault::TripleAbsent);
        };
        self.count -= 1;
        Ok(number)
    }
}

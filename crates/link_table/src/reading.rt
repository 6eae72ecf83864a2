// What a link table answers without a change.
ghost use Rattle.std.specs.Prelude.{◌≡◌, length};
ghost use Rattle.cells.specs.Counting.{in_use};
ghost use Rattle.double_array.specs.Outcomes.{CountsBeginnings};
ghost use Rattle.double_array.specs.Views.{cells_of, index_of};
ghost use Rattle.link_table.specs.Tables.{limit as limit_of, found, coded, numbers, IsConsistent};

use super::codes::{read_code, write_code};
use super::table::LinkTable;
use super::triple::Triple;
use cells::Cell;
use double_array::DoubleArray;

impl LinkTable {
    // The link number of the triple, or none.
    pub fn link_number(&self, triple: Triple) -> Option<u32>
        ensures number { result ≡ found self.now triple }
        ensures laws { IsConsistent self.now }
    {
        self.array.number_at(&write_code(triple))
    }

    // The triple that has the link number, or none.
    pub fn triple_of(&self, number: u32) -> Option<Triple>
        ensures triple { result ≡ coded self.now number }
        ensures laws { IsConsistent self.now }
    {
        // A path is written into an output that is lent: a rule of the project.
        let mut path = [0u16; 5];
        // By `let else`: tried by `ok` and `?`, and the proof did not close.
        let Ok(_) = self.array.path_of(number, &mut path) else {
            return None;
        };
        read_code(&path)
    }

    // How many triples are present.
    pub fn count(&self) -> usize
        ensures { result ≡ length (numbers self.now) }
    {
        self.count
    }

    // How many cells are in use: one more than the different non-empty beginnings of the present
    // codes, and none in an array of fewer than two cells.
    pub fn in_use(&self) -> usize
        ensures cells { result ≡ in_use (cells_of self.now.array) }
        ensures paths { CountsBeginnings (cells_of self.now.array) result }
    {
        self.array.in_use()
    }

    // The most link numbers that can be held.
    pub fn limit(&self) -> usize
        ensures { result ≡ limit_of self.now }
    {
        self.index().len()
    }

    // The double array, to look at.
    pub fn array(&self) -> &DoubleArray
        ensures { result.now ≡ self.now.array }
    {
        &self.array
    }

    // The cells, to look at.
    pub fn cells(&self) -> &[Cell]
        ensures { result.now ≡ cells_of self.now.array }
    {
        self.array.cells()
    }

    // The link index, to look at: the leaf of each link number, and 0 for a number without one.
    pub fn index(&self) -> &[u32]
        ensures { result.now ≡ index_of self.now.array }
    {
        self.array.index()
    }
}

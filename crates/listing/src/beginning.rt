// Beginnings of codes, and whether they lead anywhere.
ghost use Rattle.std.specs.Prelude.{◌≡◌, ◌/◌, ◌%◌, [], ◌∷◌};
ghost use Rattle.cells.specs.Cells.{path_of_labels};
ghost use Rattle.double_array.specs.Views.{cells_of};
ghost use Rattle.listing.specs.Parts.{leads_on};

use double_array::label_code;
use link_table::LinkTable;

// The codes with which the paths of the triples of x by the relation begin.
pub(super) fn beginning(x: u16, relation: u8) -> [u16; 3]
    ensures { result ≡ path_of_labels ((x / 256) ∷ (x % 256) ∷ relation ∷ []) }
{
    let [upper, lower] = x.to_be_bytes();
    [upper, lower, relation].map(|label| label_code(label))
}

// Whether the codes lead to a cell. Where they do not, no present triple's path begins with them.
pub(super) fn leads(table: &LinkTable, codes: &[u16]) -> bool
    ensures { result ≡ leads_on (cells_of table.now.array) codes.now }
{
    table.array().cell_at(codes).is_some()
}

// The code of a triple, as a path, and the triple of a path.
ghost use Rattle.std.specs.Prelude.{◌≡◌, true, ◌&&◌, if◌then◌else◌, Some, None};
ghost use Rattle.cells.specs.Cells.{all_codes};
ghost use Rattle.link_table.specs.Codes.{path_of_triple, triple_of, is_triple_path};

use super::triple::Triple;
use double_array::{label_code, label_of};

// The path of the triple: a code for each of its five labels, which are the two bytes of x, the relation and the
// two bytes of y, with the upper byte of a number first.
pub(super) fn write_code(triple: Triple) -> [u16; 5]
    ensures path { result ≡ path_of_triple triple }
    ensures codes { all_codes (path_of_triple triple) ≡ true }
{
    let [x_upper, x_lower] = triple.x.to_be_bytes();
    let [y_upper, y_lower] = triple.y.to_be_bytes();
    [x_upper, x_lower, triple.relation, y_upper, y_lower].map(|label| label_code(label))
}

// The triple of a path: none where a code is that of no label.
pub(super) fn read_code(path: &[u16; 5]) -> Option<Triple>
    ensures { result ≡ (if is_triple_path path.now && all_codes path.now then Some (triple_of path.now) else None) }
{
    let [x_upper, x_lower, relation, y_upper, y_lower] = path.map(|code| label_of(code));
    Some(Triple {
        x: u16::from_be_bytes([x_upper?, x_lower?]),
        relation: relation?,
        y: u16::from_be_bytes([y_upper?, y_lower?]),
    })
}

// Rows with the counts of their links.
ghost use Rattle.std.specs.Prelude.{◌≡◌, ◌≤◌, map, length};
ghost use Rattle.line_text.specs.Texts.{printed_rows};
ghost use Rattle.lines.specs.Lines.{row_of};

use line_text::{LineRow, LineRows};
use listing::LinkRow;
use record::Tally;
use share::count_at;

// The rows, each with the count of its link.
pub(super) fn counted_rows(records: &[Tally], rows: &[LinkRow]) -> LineRows
    requires { length rows.now ≤ 100 }
    ensures { printed_rows result ≡ map (row_of records.now) rows.now }
{
    let mut counted = LineRows::new();
    for row in rows {
        let _ = counted.push(LineRow {
            relation: row.relation,
            y: row.y,
            count: count_at(records, row.link),
        });
    }
    counted
}

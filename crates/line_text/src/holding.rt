// Rows as they are taken and held.
ghost use Rattle.std.specs.Prelude.{◌≡◌, ◌≤◌, [], length, if◌then◌else◌, Ok, Err, nat_lt};
ghost use Rattle.line_text.specs.Texts.{printed_rows, rows_with};

use super::rows::{LineRow, LineRows, ROW_PLACES};

impl LineRows {
    // No rows yet.
    pub fn new() -> LineRows
        ensures { printed_rows result ≡ [] }
    {
        LineRows {
            rows: [LineRow::default(); ROW_PLACES],
            count: 0,
        }
    }

    // Takes a row after those that are held, or gives it back where there is no place for it; the
    // rows then stay.
    pub fn push(&mut self, row: LineRow) -> Result<(), LineRow>
        ensures room { result ≡ (if nat_lt (length (printed_rows self.old)) 100 then Ok tt else Err row) }
        ensures after { printed_rows self.new ≡ rows_with (printed_rows self.old) row }
    {
        if self.count >= ROW_PLACES {
            return Err(row);
        }
        self.rows[self.count] = row;
        self.count += 1;
        Ok(())
    }

    // The rows that are held, in their order.
    pub fn as_slice(&self) -> &[LineRow]
        ensures rows { result.now ≡ printed_rows self.now }
        ensures few { length result.now ≤ 100 }
    {
        &self.rows[0..self.count]
    }
}

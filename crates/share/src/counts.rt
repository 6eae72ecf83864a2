// The counts at link numbers, and their sum over the rows of a word.
ghost use Rattle.std.specs.Prelude.{◌≡◌, ◌^◌, ◌≤◌, length, ◌==◌};
ghost use Rattle.share.specs.Shares.{count_at, sum_at, present_in};
ghost use Rattle.share.specs.Totals.{total_of};

use link_table::LinkTable;
use listing::{LinkRow, list_upper};
use record::Tally;

// The count at a link number, 0 where the records do not reach it.
pub fn count_at(records: &[Tally], link: u32) -> u32
    ensures { result ≡ count_at records.now link }
{
    let place = link.saturating_sub(1) as usize;
    records.get(place).map_or(0, |tally| tally.count)
}

// The sum of the counts at the link numbers of at most 256 rows.
fn sum_at(records: &[Tally], rows: &[LinkRow]) -> u64
    requires { length rows.now ≤ 256 }
    ensures sum { result ≡ sum_at records.now rows.now }
    ensures most { result ≤ 2 ^ 40 }
{
    // A loop: tried as a chain's `sum`, and the bound did not close.
    let mut sum = 0;
    for row in rows {
        sum += count_at(records, row.link) as u64;
    }
    sum
}

// The sum of the counts of all triples with the first word x and the relation, one upper byte of the
// second word's number after the other.
pub(super) fn total(table: &LinkTable, records: &[Tally], x: u16, relation: u8) -> u64
    ensures sum { result ≡ total_of ◌==◌ (present_in table.now records.now) x relation }
    ensures most { result ≤ 2 ^ 48 }
{
    // A block of rows is written into an output that is lent: a rule of the project.
    let mut rows = [LinkRow::default(); 256];
    let mut sum = 0;
    for upper in 0..=255u8 {
        let count = list_upper(table, x, relation, upper, &mut rows);
        sum += sum_at(records, &rows[..count]);
    }
    sum
}

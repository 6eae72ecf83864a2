// Line text: what is printed of an answer.
//
// This crate knows the answers that a line can get and how each is written, with numbers in decimal.
// It does not know how a line is read, what a command does, or where the text goes.
// The rules stand in docs/LINES.md.
#![tactic(auto)]

ghost use Rattle.std.specs.Prelude.{◌≡◌, ◌+◌, ◌*◌, ◌≤◌, ◌++◌, length, if◌then◌else◌, Some, None, nat_le};
ghost use Rattle.std.specs.List.{flat_map};
ghost use Rattle.output.specs.Written.{written};
ghost use Rattle.line_text.specs.Texts.{number_text, three_text, row_text, rows_text, report_line, done_text, answer_text, with_text};

use arrayvec::ArrayVec;
use itoa::Buffer;
use refusal::{Refusal, Report};

mod holding;
mod rows;
#[cfg(test)]
mod tests;

pub use rows::{LineRow, LineRows, ROW_PLACES};

// The least bytes that an output has.
pub const TEXT_BYTES: usize = 4096;

// No line of a text has more bytes: `no` and a tab, and three numbers of ten digits with a byte after each.
const LINE_BYTES: usize = 36;

// A line of a text as it is put together. That is done by functions that cannot fail and not by `Display`: its
// contract does not say that it succeeds, and `write_answer` promises a text for every answer. It has the places
// of a line and not of a whole text, since a new vector of fixed capacity is blanked first, place by place.
type Text = ArrayVec<u8, LINE_BYTES>;

// What a command answers.
#[derive(Clone, Copy)]
pub enum LineAnswer {
    // It is done.
    Done,
    // The numbers of both words, and the count.
    Found { x: u16, y: u16, count: u32 },
    // There is no such triple.
    Absent,
    Listing(LineRows),
    Share(u32),
}

// Puts a text after what is there.
fn put_text(text: &mut Text, more: &[u8])
    requires { length text.old.items + length more.now ≤ 36 }
    ensures { text.new.items ≡ text.old.items ++ more.now }
{
    text.try_extend_from_slice(more).unwrap();
}

// Puts a number and the byte that ends it: at most 11 bytes.
fn put_field(text: &mut Text, n: u32, end: u8)
    requires { length text.old.items + 11 ≤ 36 }
    ensures wrote { text.new.items ≡ text.old.items ++ number_text n end }
    ensures short { length text.new.items ≤ length text.old.items + 11 }
{
    let mut digits = Buffer::new();
    put_text(text, digits.format(n).as_bytes());
    put_text(text, &[end]);
}

// Puts three numbers as a line: at most 33 bytes.
fn put_three(text: &mut Text, a: u32, b: u32, c: u32)
    requires { length text.old.items + 33 ≤ 36 }
    ensures wrote { text.new.items ≡ text.old.items ++ three_text a b c }
    ensures short { length text.new.items ≤ length text.old.items + 33 }
{
    put_field(text, a, b'\t');
    put_field(text, b, b'\t');
    put_field(text, c, b'\n');
}

// Writes a line from a place on, and answers where it ends.
fn write_line(out: &mut [u8], at: usize, line: &[u8]) -> usize
    requires { at + length line.now ≤ length out.old }
    ensures end { result ≡ at + length line.now }
    ensures after { out.new ≡ written out.old at line.now }
{
    output::write_at(out, at, line).unwrap()
}

// Writes a line for each row from the start of the output on, and answers where they end.
fn write_rows(out: &mut [u8], rows: &[LineRow]) -> usize
    requires { 33 * length rows.now ≤ length out.old }
    ensures end { result ≡ length (flat_map row_text rows.now) }
    ensures after { out.new ≡ written out.old 0 (flat_map row_text rows.now) }
    ensures short { result ≤ 33 * length rows.now }
{
    let mut at = 0;
    for row in rows {
        let mut text = Text::new();
        put_three(&mut text, row.relation as u32, row.y as u32, row.count);
        at = write_line(out, at, text.as_slice());
    }
    at
}

// Writes a listing: its rows, and how many there are.
fn write_listing(out: &mut [u8], rows: &[LineRow]) -> usize
    requires room { 4096 ≤ length out.old }
    requires few { length rows.now ≤ 100 }
    ensures end { result ≡ length (rows_text rows.now) }
    ensures after { out.new ≡ written out.old 0 (rows_text rows.now) }
{
    let at = write_rows(out, rows);
    let mut text = Text::new();
    put_text(&mut text, b"end\t");
    put_field(&mut text, rows.len() as u32, b'\n');
    write_line(out, at, text.as_slice())
}

// Writes a refusal: its number, its layer and its side.
fn write_report(out: &mut [u8], report: Report) -> usize
    requires { 4096 ≤ length out.old }
    ensures end { result ≡ length (report_line report) }
    ensures after { out.new ≡ written out.old 0 (report_line report) }
{
    let mut line = Text::new();
    put_text(&mut line, b"no\t");
    put_three(
        &mut line,
        report.number as u32,
        report.layer as u32,
        report.side as u32,
    );
    write_line(out, 0, line.as_slice())
}

// Writes what a command answers.
fn write_done(out: &mut [u8], answer: LineAnswer) -> usize
    requires { 4096 ≤ length out.old }
    ensures end { result ≡ length (done_text answer) }
    ensures after { out.new ≡ written out.old 0 (done_text answer) }
{
    let mut text = Text::new();
    match answer {
        LineAnswer::Done => put_text(&mut text, b"ok\n"),
        LineAnswer::Found { x, y, count } => put_three(&mut text, x as u32, y as u32, count),
        LineAnswer::Absent => put_text(&mut text, b"none\n"),
        LineAnswer::Listing(rows) => return write_listing(out, rows.as_slice()),
        LineAnswer::Share(share) => put_field(&mut text, share, b'\n'),
    }
    write_line(out, 0, text.as_slice())
}

// Writes what is printed of an answer from the start of the output on, and answers how many bytes
// that are; the rest stays. Where the output has fewer than 4,096 bytes it writes nothing.
pub fn write_answer(answer: &Result<LineAnswer, Refusal>, out: &mut [u8]) -> Option<usize>
    ensures size { result ≡ (if nat_le 4096 (length out.old) then Some (length (answer_text answer.now)) else None) }
    ensures after { out.new ≡ with_text out.old (answer_text answer.now) }
{
    if out.len() < TEXT_BYTES {
        return None;
    }
    match *answer {
        Ok(done) => Some(write_done(out, done)),
        Err(refusal) => Some(write_report(out, refusal.report())),
    }
}

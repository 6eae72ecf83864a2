// Lines: one line of text carried out in a store of tallies, over byte text and a trie list.
//
// This crate joins the commands of lines, the calls of the store and the texts that are printed. It
// knows nothing of where lines come from and where texts go. Every command but a share goes through
// `perform_growing`, which carries the law of every history. The rules stand in docs/LINES.md.
#![tactic(auto)]

mod answering;
mod listing_rows;

ghost use Rattle.std.specs.Prelude.{◌<◌, ◌≤◌, length, IfOk};
ghost use Rattle.history.specs.Kits.{state_of};
ghost use Rattle.command.specs.Commands.{asked_by};
ghost use Rattle.line_text.specs.Texts.{answer_text};
ghost use Rattle.lines.specs.Lines.{Carried, RefusedShort, CarriedOut};

use answering::answer;
use command::parse;
use line_text::{LineAnswer, TEXT_BYTES, write_answer};
use record::Tally;
use refusal::Refusal;
use store::RelationTable;
use trie_list::TrieList;

// Carries out one line, given without its line feed, and says what is to be printed.
fn answer_line(
    table: &mut RelationTable,
    list: &mut TrieList,
    records: &mut [Tally],
    line: &[u8],
) -> Result<LineAnswer, Refusal>
    ensures { Carried (state_of list.old table.old records.old) (asked_by line.now) (answer_text result)
        (state_of list.new table.new records.new) }
{
    match parse(line) {
        Ok(command) => answer(table, list, records, command),
        Err(refusal) => Err(refusal),
    }
}

// Carries out one line, given without its line feed: writes what is to be printed to `out` from its
// start, and answers how many bytes that are; the rest of `out` stays. Before anything is done, an
// `out` shorter than 4,096 bytes is refused. Every other refusal is printed.
pub fn perform_line(
    table: &mut RelationTable,
    list: &mut TrieList,
    records: &mut [Tally],
    line: &[u8],
    out: &mut [u8],
) -> Result<usize, Refusal>
    ensures short { length out.old < 4096 → RefusedShort (state_of list.old table.old records.old) out.old result
        (state_of list.new table.new records.new) out.new }
    ensures carried { 4096 ≤ length out.old → CarriedOut (state_of list.old table.old records.old) line.now out.old result
        (state_of list.new table.new records.new) out.new }
    ensures within { IfOk result (λ n. n ≤ length out.old) }
{
    if out.len() < TEXT_BYTES {
        return Err(Refusal::OutputTooShort);
    }
    let answer = answer_line(table, list, records, line);
    write_answer(&answer, out).ok_or(Refusal::OutputTooShort)
}

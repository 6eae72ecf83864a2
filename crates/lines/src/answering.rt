// Each command carried out in the store.
ghost use Rattle.std.specs.Prelude.{◌≡◌, Some};
ghost use Rattle.history.specs.Kits.{state_of};
ghost use Rattle.requests.specs.Requests.{growing_call_of};
ghost use Rattle.command.specs.Commands.{seen, find as find_asked, list as list_asked, share as share_asked};
ghost use Rattle.line_text.specs.Texts.{answer_text};
ghost use Rattle.lines.specs.Lines.{Carried, SaidDone, found_text, listed_text};

use super::listing_rows::counted_rows;
use command::Command;
use history::Reply;
use line_text::{LineAnswer, ROW_PLACES};
use listing::LinkRow;
use record::Tally;
use refusal::Refusal;
use requests::{GrowingRequest, Request, perform_growing};
use script::WordTriple;
use share::{count_at, share};
use store::RelationTable;
use trie_list::TrieList;

// List, table and records are three parameters, here and below: a rule of the project.

// Makes a call that is only said to be done.
fn done(
    table: &mut RelationTable,
    list: &mut TrieList,
    records: &mut [Tally],
    request: GrowingRequest<'_, u8, Tally>,
) -> Result<LineAnswer, Refusal>
    ensures { SaidDone (state_of list.old table.old records.old) (growing_call_of request.entry) (answer_text result)
        (state_of list.new table.new records.new) }
{
    let mut nowhere: [LinkRow; 0] = [];
    perform_growing(table, list, records, &mut nowhere, request)?;
    Ok(LineAnswer::Done)
}

// What is printed of a link that was sought. By cases, as in `listed_answer` and `answer_line`: an answer has room
// for 100 rows, and a `?` there moves that room once more.
fn found_answer(
    records: &[Tally],
    reply: Result<Reply<Tally>, Refusal>,
) -> Result<LineAnswer, Refusal>
    ensures { answer_text result ≡ found_text records.now reply }
{
    match reply {
        Ok(Reply::Found(Some(link))) => Ok(LineAnswer::Found {
            x: link.x,
            y: link.y,
            count: count_at(records, link.number),
        }),
        Ok(_) => Ok(LineAnswer::Absent),
        Err(refusal) => Err(refusal),
    }
}

// Finds a triple, with its count.
fn found(
    table: &mut RelationTable,
    list: &mut TrieList,
    records: &mut [Tally],
    words: WordTriple<'_, u8>,
) -> Result<LineAnswer, Refusal>
    ensures { Carried (state_of list.old table.old records.old)
        (Some (find_asked words.entry.x.now words.entry.y.now words.entry.relation)) (answer_text result)
        (state_of list.new table.new records.new) }
{
    let mut nowhere: [LinkRow; 0] = [];
    let request = GrowingRequest::Other(Request::Find { words });
    let reply = perform_growing(table, list, records, &mut nowhere, request);
    found_answer(records, reply)
}

// What is printed of rows that were listed.
fn listed_answer(
    records: &[Tally],
    rows: &[LinkRow; ROW_PLACES],
    reply: Result<Reply<Tally>, Refusal>,
) -> Result<LineAnswer, Refusal>
    ensures { answer_text result ≡ listed_text records.now rows.now reply }
{
    match reply {
        Ok(Reply::Listed(count)) if count <= ROW_PLACES => {
            Ok(LineAnswer::Listing(counted_rows(records, &rows[..count])))
        }
        Ok(_) => Ok(LineAnswer::Absent),
        Err(refusal) => Err(refusal),
    }
}

// Lists the triples of a word, with their counts; more than 100 are too many.
fn listed(
    table: &mut RelationTable,
    list: &mut TrieList,
    records: &mut [Tally],
    x: &[u8],
    relation: u8,
) -> Result<LineAnswer, Refusal>
    ensures { Carried (state_of list.old table.old records.old) (Some (list_asked x.now relation))
        (answer_text result) (state_of list.new table.new records.new) }
{
    // Rows are written into an output that is lent: a rule of the project.
    let mut rows = [LinkRow::default(); ROW_PLACES];
    let request = GrowingRequest::Other(Request::List { x, relation });
    let reply = perform_growing(table, list, records, &mut rows, request);
    listed_answer(records, &rows, reply)
}

// The share of a triple.
fn shared(
    table: &RelationTable,
    list: &TrieList,
    records: &[Tally],
    words: WordTriple<'_, u8>,
) -> Result<LineAnswer, Refusal>
    ensures { Carried (state_of list.now table.now records.now)
        (Some (share_asked words.entry.x.now words.entry.y.now words.entry.relation)) (answer_text result)
        (state_of list.now table.now records.now) }
{
    Ok(LineAnswer::Share(share(table, list, records, words)?))
}

// Carries out a command and says what is to be printed.
pub(super) fn answer(
    table: &mut RelationTable,
    list: &mut TrieList,
    records: &mut [Tally],
    command: Command<'_>,
) -> Result<LineAnswer, Refusal>
    ensures { Carried (state_of list.old table.old records.old) (Some (seen command.entry)) (answer_text result)
        (state_of list.new table.new records.new) }
{
    match command {
        Command::Add { words, count } => {
            let record = Tally { count };
            let request = GrowingRequest::Add { words, record };
            done(table, list, records, request)
        }
        Command::Tie { words, count } => {
            let record = Tally { count };
            let request = GrowingRequest::Other(Request::Tie { words, record });
            done(table, list, records, request)
        }
        Command::Delete(words) => {
            let request = GrowingRequest::Other(Request::Delete { words });
            done(table, list, records, request)
        }
        Command::Find(words) => found(table, list, records, words),
        Command::List { x, relation } => listed(table, list, records, x, relation),
        Command::Share(words) => shared(table, list, records, words),
    }
}

// Any of the calls, made by a request: the law of every history stands here.
//
// There are two entries, since add needs a list that grows and the other calls do not; each takes the
// table, the list and the records side by side, a rule of the project.
ghost use Rattle.lexicon.specs.Growths.{growth_of, no_growth};
ghost use Rattle.history.specs.Kits.{kit_of, state_of};
ghost use Rattle.history.specs.Calls.{Steps};
ghost use Rattle.history.specs.Laws.{Onward};
ghost use Rattle.requests.specs.Requests.{call_of, growing_call_of};

use super::request::{GrowingRequest, Request};
use history::Reply;
use lexicon::{GrowingList, ReadableList};
use listing::LinkRow;
use record::Record;
use refusal::Refusal;
use script::Script;
use store::RelationTable;

// Any call but add, by its own rule.
fn make<'a, S: Script, L: ReadableList, R: Record>(
    table: &mut RelationTable,
    list: &L,
    records: &mut [R],
    out: &mut [LinkRow],
    request: Request<'a, S, R>,
) -> Result<Reply<R>, Refusal>
    ensures { Steps (kit_of S.Script L.ReadableList R.Record) no_growth (state_of list.now table.old records.old)
        out.old (call_of request.entry) result (state_of list.now table.new records.new) out.new }
{
    // `?` and not `map`: the checker follows no case of the generic `Reply` as a function.
    match request {
        Request::Tie { words, record } => {
            Ok(Reply::Linked(table.tie(list, records, words, record)?))
        }
        Request::Delete { words } => Ok(Reply::Deleted(table.delete(list, words)?)),
        Request::Find { words } => Ok(Reply::Found(table.find(list, words)?)),
        Request::Read { link } => Ok(Reply::Read(table.read(records, link)?)),
        Request::Change { link, record } => {
            table.change(records, link, record)?;
            Ok(Reply::Changed)
        }
        Request::List { x, relation } => Ok(Reply::Listed(table.list(list, x, relation, out)?)),
        Request::Figures => Ok(Reply::Counted(table.figures())),
    }
}

// Makes any call but add, over a list that is only read. What it answers and leaves is by the
// call's own rule; only list writes to `out`. Of every history of calls that led from a new store
// to this one, it leads on to a history of which the law holds.
pub fn perform<'a, S: Script, L: ReadableList, R: Record>(
    table: &mut RelationTable,
    list: &L,
    records: &mut [R],
    out: &mut [LinkRow],
    request: Request<'a, S, R>,
) -> Result<Reply<R>, Refusal>
    ensures step { Steps (kit_of S.Script L.ReadableList R.Record) no_growth (state_of list.now table.old records.old)
        out.old (call_of request.entry) result (state_of list.now table.new records.new) out.new }
    ensures law { Onward (kit_of S.Script L.ReadableList R.Record) (state_of list.now table.old records.old)
        (call_of request.entry) result (state_of list.now table.new records.new) }
{
    make(table, list, records, out, request)
}

// Any of the eight calls, by its own rule.
fn make_growing<'a, S: Script, L: GrowingList, R: Record>(
    table: &mut RelationTable,
    list: &mut L,
    records: &mut [R],
    out: &mut [LinkRow],
    request: GrowingRequest<'a, S, R>,
) -> Result<Reply<R>, Refusal>
    ensures { Steps (kit_of S.Script L.ReadableList R.Record) (growth_of L.GrowingList)
        (state_of list.old table.old records.old) out.old (growing_call_of request.entry) result
        (state_of list.new table.new records.new) out.new }
{
    match request {
        GrowingRequest::Add { words, record } => {
            Ok(Reply::Linked(table.add(list, records, words, record)?))
        }
        GrowingRequest::Other(request) => make(table, list, records, out, request),
    }
}

// Makes any of the eight calls, over a list that grows: as perform, and add as well.
pub fn perform_growing<'a, S: Script, L: GrowingList, R: Record>(
    table: &mut RelationTable,
    list: &mut L,
    records: &mut [R],
    out: &mut [LinkRow],
    request: GrowingRequest<'a, S, R>,
) -> Result<Reply<R>, Refusal>
    ensures step { Steps (kit_of S.Script L.ReadableList R.Record) (growth_of L.GrowingList)
        (state_of list.old table.old records.old) out.old (growing_call_of request.entry) result
        (state_of list.new table.new records.new) out.new }
    ensures law { Onward (kit_of S.Script L.ReadableList R.Record) (state_of list.old table.old records.old)
        (growing_call_of request.entry) result (state_of list.new table.new records.new) }
{
    make_growing(table, list, records, out, request)
}

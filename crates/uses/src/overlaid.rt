// A store over a list above another: every call leads every history on, and the law with it.
ghost use Rattle.std.specs.Prelude.{[], length, vec_len};
ghost use Rattle.link_table.specs.Tables.{IsNewTable};
ghost use Rattle.lexicon.specs.Growths.{growth_of};
ghost use Rattle.history.specs.Kits.{kit_of, state_of};
ghost use Rattle.history.specs.Calls.{Steps};
ghost use Rattle.history.specs.Runs.{Reached};
ghost use Rattle.history.specs.Laws.{Law, Onward};
ghost use Rattle.requests.specs.Requests.{growing_call_of};

use cells::Cell;
use history::Reply;
use lexicon::{GrowingList, ReadableList};
use listing::LinkRow;
use overlay::Overlay;
use record::Record;
use refusal::Refusal;
use requests::{GrowingRequest, perform_growing};
use script::Script;
use store::RelationTable;

// The link table of a new store over a list above another. A history begins, and the law holds.
pub fn new_overlaid<S: Script, L: ReadableList, U: GrowingList, R: Record>(
    list: &Overlay<L, U>,
    records: &[R],
    cells: Vec<Cell>,
    index: Vec<u32>,
) -> RelationTable
    ensures made { IsNewTable (vec_len cells) (vec_len index) (length records.now) result }
    ensures start { Reached (kit_of S.Script ⟦<Overlay<L, U> as ReadableList>⟧ R.Record) []
        (state_of list.now result records.now) }
    ensures law { Law (kit_of S.Script ⟦<Overlay<L, U> as ReadableList>⟧ R.Record) []
        (state_of list.now result records.now) }
{
    RelationTable::new::<S, Overlay<L, U>, R>(list, records, cells, index)
}

// Any call over a list above another leads every history on.
pub fn perform_overlaid<'a, S: Script, L: ReadableList, U: GrowingList, R: Record>(
    table: &mut RelationTable,
    list: &mut Overlay<L, U>,
    records: &mut [R],
    out: &mut [LinkRow],
    request: GrowingRequest<'a, S, R>,
) -> Result<Reply<R>, Refusal>
    ensures step { Steps (kit_of S.Script ⟦<Overlay<L, U> as ReadableList>⟧ R.Record)
        (growth_of ⟦<Overlay<L, U> as GrowingList>⟧) (state_of list.old table.old records.old) out.old
        (growing_call_of request.entry) result (state_of list.new table.new records.new) out.new }
    ensures law { Onward (kit_of S.Script ⟦<Overlay<L, U> as ReadableList>⟧ R.Record)
        (state_of list.old table.old records.old) (growing_call_of request.entry) result
        (state_of list.new table.new records.new) }
{
    perform_growing(table, list, records, out, request)
}

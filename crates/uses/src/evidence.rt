// A caller that files evidence under a link number.
ghost use Rattle.std.specs.Prelude.{◌≡◌, IfOk, vec_len};
ghost use Rattle.lexicon.specs.Growths.{growth_of};
ghost use Rattle.history.specs.Kits.{kit_of, state_of};
ghost use Rattle.history.specs.Calls.{read_of};
ghost use Rattle.uses.specs.Evidence.{IsOwnReading, ReadsItsOwn, RunsFrom};

use cells::Cell;
use history::Reading;
use lexicon::{GrowingList, ReadableList};
use record::Record;
use refusal::Refusal;
use script::{Script, WordTriple};
use store::RelationTable;

// Makes a store, adds a pair with its evidence and another pair, asks for the first once more, which is
// refused, takes the other pair out, and reads by the number that it was handed. If no call that counts
// was refused, what it reads are the words, the relation and the evidence of the first pair: the law
// says so of every history, and so of this one.
pub fn evidence_of<S: Script, L: GrowingList, R: Record>(
    list: &mut L,
    records: &mut [R],
    cells: Vec<Cell>,
    index: Vec<u32>,
    pair: WordTriple<'_, S>,
    evidence: R,
    other: WordTriple<'_, S>,
) -> Result<Reading<R>, Refusal>
    ensures run { RunsFrom (kit_of S.Script L.ReadableList R.Record) (growth_of L.GrowingList) (vec_len cells)
        (vec_len index) list.old records.old pair.entry other.entry evidence result list.new records.new }
    ensures own { IfOk result
        (IsOwnReading (kit_of S.Script L.ReadableList R.Record) list.new pair.entry.x.now pair.entry.y.now
        pair.entry.relation evidence) }
{
    let mut table = RelationTable::new::<S, L, R>(list, records, cells, index);
    let link = table.add(list, records, pair, evidence)?;
    table.add(list, records, other, evidence)?;
    let _ = table.tie(list, records, pair, evidence);
    table.delete(list, other)?;
    table.read(records, link.number)
}

// What is filed under a number: read as `read` does. Whatever was done since the number was handed out, as
// long as it was not taken back, the answer is of its own pair, with the record last written for it.
pub fn evidence_at<S: Script, L: ReadableList, R: Record>(
    table: &RelationTable,
    list: &L,
    records: &[R],
    link: u32,
) -> Result<Reading<R>, Refusal>
    ensures answer { result ≡ read_of table.now records.now link }
    ensures own { ReadsItsOwn (kit_of S.Script L.ReadableList R.Record) (state_of list.now table.now records.now)
        link result }
{
    table.read(records, link)
}

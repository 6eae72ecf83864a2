// Shares: how much of the counts of a word's triples by one relation is the count of one of them.
//
// This crate knows tallies, and a store by its link table, its list and its calls. It knows nothing of
// cells, changes nothing and allocates nothing. The rules stand in docs/SHARES.md.
#![tactic(auto)]

mod counts;
mod rounding;
#[cfg(test)]
mod tests;

ghost use Rattle.std.specs.Prelude.{◌≡◌, ◌≤◌, IfOk};
ghost use Rattle.history.specs.Kits.{state_of};
ghost use Rattle.share.specs.Rounding.{Nearest};
ghost use Rattle.share.specs.Shares.{share_in};
ghost use Rattle.share.specs.Laws.{tally_kit, ShareLaw};

pub use counts::count_at;
use counts::total;
use lexicon::ReadableList;
use record::Tally;
use refusal::Refusal;
use rounding::millionths;
use script::{Script, WordTriple};
use store::RelationTable;

// The share of a present triple: its count, in millionths of what the counts of the present triples with
// its X and its relation add up to. The quotient goes to the nearest whole number, and from halfway
// between two to the larger; it is at most 1,000,000. Refused, in this order: X or Y has no symbol or
// more than 32, the relation is 0, X or Y is not in the list, the triple is not present.
pub fn share<S: Script, L: ReadableList>(
    table: &RelationTable,
    list: &L,
    records: &[Tally],
    words: WordTriple<'_, S>,
) -> Result<u32, Refusal>
    ensures answer { result ≡ share_in (tally_kit S.Script L.ReadableList) (state_of list.now table.now records.now)
        words.entry.x.now words.entry.y.now words.entry.relation }
    ensures most { IfOk result (λ n. n ≤ 1000000) }
    ensures nearest { Nearest }
    ensures law { ShareLaw (tally_kit S.Script L.ReadableList) (state_of list.now table.now records.now) words.entry.x.now
        words.entry.y.now words.entry.relation result }
{
    let link = table.link_of(list, words)?;
    let count = count_at(records, link.number);
    let total = total(table.links(), records, link.x, words.relation);
    Ok(millionths(count, total))
}

// Worked examples: the rules on small lists and stores, told of words, triples and spellings.
//
// This crate has no code of its own. One contract names the examples, which specs/ says of every run
// of the calls that their rules allow: specs/Examples.antt of entering words into a trie list and of
// a spelling, specs/Triples.antt of tie, delete and figures, for every script, list and record type.
// proofs/ computes them.
// The rules stand in docs/CELLS.md, docs/WORD_LISTS.md, docs/LINKS.md, docs/STORE.md and
// docs/SCRIPTS.md.
#![tactic(auto)]

ghost use Rattle.history.specs.Kits.{kit_of};
ghost use Rattle.worked_examples.specs.Examples.{WordExamples};
ghost use Rattle.worked_examples.specs.Triples.{TripleExamples};

use lexicon::ReadableList;
use record::Record;
use script::Script;

// The rules, worked out on small lists and stores.
pub fn worked_examples<S: Script, L: ReadableList, R: Record>()
    ensures words { WordExamples }
    ensures triples { TripleExamples (kit_of S.Script L.ReadableList R.Record) }
{}

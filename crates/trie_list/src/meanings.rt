// What the trie list means.
ghost use Rattle.trie_list.specs.Meanings.{MeaningOfTrieList, CounterOfTrieList};

// The roll, the room and what an entry leaves are those of docs/WORD_LISTS.md, "The trie list", and the
// list counts the words of its roll.
#[tactic(auto, using(crate::proofs::Lists::roll_lawful))]
pub fn meaning()
    ensures members { MeaningOfTrieList }
    ensures counter { CounterOfTrieList }
{}

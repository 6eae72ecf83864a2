// What the plain list means.
ghost use Rattle.plain_list.specs.Meanings.{MeaningOfPlainList, CountersOfPlainList};

// The roll, the room and what an entry leaves are those of docs/WORD_LISTS.md, "The plain list", and
// the list counts the words of its roll and the bytes that they take.
#[tactic(auto, using(crate::proofs::Lists::roll_lawful))]
pub fn meaning()
    ensures members { MeaningOfPlainList }
    ensures counters { CountersOfPlainList }
{}

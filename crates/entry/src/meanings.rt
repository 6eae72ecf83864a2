// What a reply means to the library's interfaces.
ghost use Rattle.entry.specs.Meanings.{MeaningOfReplies};

// A reply has the entry or the refusal's report, and is printed as docs/WORD_LISTS.md says of the program `words`.
pub fn meaning()
    ensures { MeaningOfReplies }
{}

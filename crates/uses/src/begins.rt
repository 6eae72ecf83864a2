// Stores of byte text begin, over either list and with either record type.
ghost use Rattle.uses.specs.Begins.{ByteTextBegins};

// Over a trie list or a plain list of any words, with any tallies or scores and a table made for them, a
// history begins, and the law holds.
pub fn byte_text_begins()
    ensures { ByteTextBegins }
{}

// Small stores, and what is asked of them.
use cells::Cell;
use lexicon::ReadableList;
use record::Record;
use script::WordTriple;
use std::alloc::{AllocError, Global};
use store::RelationTable;

// A link table of so many cells and index entries, all with some content.
pub fn table<L: ReadableList, R: Record>(
    heap: Global,
    list: &L,
    records: &[R],
    cells: usize,
    index: usize,
) -> Result<RelationTable, AllocError> {
    let cell = Cell { base: 9, check: 9 };
    let cells = vec![in heap; cell; cells]?;
    let index = vec![in heap; 7u32; index]?;
    Ok(RelationTable::new::<u8, L, R>(list, records, cells, index))
}

// A triple of words of byte text.
pub fn words<'a>(x: &'a [u8], relation: u8, y: &'a [u8]) -> WordTriple<'a, u8> {
    WordTriple { x, relation, y }
}

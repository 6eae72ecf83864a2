// links: carries out the lines of the standard input in a store of tallies, and prints the answers.
//
// Each line is ended by its feed, and bytes without one at the end are not carried out. docs/LINES.md has the
// commands and the answers. The program only reads lines and writes what `perform_line` says.
#![tactic(auto)]

use cells::Cell;
use line_text::TEXT_BYTES;
use lines::perform_line;
use record::Tally;
use std::io;
use std::io::{BufRead, BufReader, BufWriter, Write};
use store::RelationTable;
use trie_list::TrieList;

// How many cells each cell array has, and how many words and records there are.
const CELL_PLACES: usize = 2048;

const WORD_PLACES: usize = 256;

const RECORD_PLACES: usize = 256;

fn main(rt: HostRuntime) -> io::Result<()> {
    let heap = rt.alloc();
    let mut list = TrieList::new(
        vec![in heap; Cell::FREE; CELL_PLACES]?,
        vec![in heap; 0u32; WORD_PLACES]?,
    );
    let mut records = vec![in heap; Tally { count: 0 }; RECORD_PLACES]?;
    let cells = vec![in heap; Cell::FREE; CELL_PLACES]?;
    let index = vec![in heap; 0u32; RECORD_PLACES]?;
    let mut table = RelationTable::new::<u8, TrieList, Tally>(
        &list,
        records.as_slice(),
        cells,
        index,
    );
    let mut input = BufReader::new(heap, rt.stdin())?;
    let mut output = BufWriter::new(heap, rt.stdout())?;
    let mut read = Vec::new(heap);
    let mut text = vec![in heap; 0u8; TEXT_BYTES]?;
    // A count, since a `loop` over input has no end that could be proved; the library's iterator over
    // lines reads text alone, and does not tell a last line without a feed.
    for _ in 0..u64::MAX {
        read.clear();
        input.read_until(b'\n', &mut read)?;
        let [line @ .., b'\n'] = read.as_slice() else {
            break;
        };
        if let Ok(size) = perform_line(
            &mut table,
            &mut list,
            records.as_mut_slice(),
            line,
            text.as_mut_slice(),
        ) {
            output.write_all(&text.as_slice()[0..size])?;
        }
    }
    output.flush()
}

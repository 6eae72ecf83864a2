// words: enters each line of the standard input into a word list, as a word of byte text.
//
// For each line it prints the word's number and whether it is new or held, or `no` with the number,
// the layer and the side of the refusal. A line that begins with a question mark asks for the words
// that begin with the rest of the line: it prints each with its number, and then `end` and how many.
// At the end of the input it prints how many words and labels the list holds.
#![tactic(auto)]

use cells::Cell;
use entry::{EntryReply, beginning_of, enter_word, labels_held, line_text};
use lexicon::ReadableList;
use script::Script;
use std::io;
use std::io::{BufRead, BufReader, Write};
use trie_list::TrieList;

// How many words and how many cells the list has places for.
const WORD_PLACES: usize = 64;

const CELL_PLACES: usize = 2048;

// Prints a number and its word.
fn show_word(rt: &HostRuntime, list: &TrieList, number: u32) -> io::Result<()> {
    // A list writes into an output that it is lent, here and below: a rule of the project.
    let mut labels = [0u8; 128];
    let Ok(short) = u16::try_from(number) else {
        return Ok(());
    };
    let Ok(size) = list.spell(short, &mut labels) else {
        return Ok(());
    };
    print!(rt; "{number} ")?;
    rt.stdout().write_all(&labels[0..size])?;
    println!(rt; "")
}

// Prints the words that begin so, or the refusal.
fn show_below(rt: &HostRuntime, list: &TrieList, beginning: &[u8]) -> io::Result<()> {
    let mut numbers = [0u32; WORD_PLACES];
    match list.words_below(beginning, &mut numbers) {
        Ok(count) => {
            for number in &numbers[0..count] {
                show_word(rt, list, *number)?;
            }
            println!(rt; "end {count}")
        }
        Err(fault) => {
            let reply = EntryReply::from(Err(fault.into()));
            println!(rt; "{reply}")
        }
    }
}

// Answers one line.
fn answer(rt: &HostRuntime, list: &mut TrieList, line: &[u8]) -> io::Result<()> {
    if let Some(beginning) = beginning_of(line) {
        return show_below(rt, list, beginning);
    }
    let reply = EntryReply::from(enter_word(list, line));
    println!(rt; "{reply}")
}

fn main(rt: HostRuntime) -> io::Result<()> {
    let cells = vec![in rt.alloc(); Cell::FREE; CELL_PLACES]?;
    let index = vec![in rt.alloc(); 0u32; WORD_PLACES]?;
    let mut list = TrieList::new(cells, index);
    let mut input = BufReader::new(rt.alloc(), rt.stdin())?;
    let mut read = Vec::new(rt.alloc());
    // A count, since a `loop` over input has no end that could be proved.
    for _ in 0..u64::MAX {
        read.clear();
        input.read_until(b'\n', &mut read)?;
        let Some(line) = line_text(read.as_slice()) else {
            break;
        };
        answer(&rt, &mut list, line)?;
    }
    let count = list.count();
    let labels = labels_held(&list);
    println!(rt; "{count} words, {labels} labels")
}

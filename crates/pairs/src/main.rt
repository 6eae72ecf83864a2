// pairs: shows that a link number leads to its pair, however often cells move.
//
// It adds pairs of words one by one. After each it prints, for every link number whose leaf stands in
// another cell now, the cell before and after and what reading the number gives. Then it deletes a
// pair, changes a record, ties a new pair and the deleted one, and prints what the numbers 1 to 10
// give, and at the end the figures.
#![tactic(auto)]

use cells::Cell;
use history::Reply;
use listing::LinkRow;
use record::Tally;
use refusal::Refusal;
use requests::{GrowingRequest, Request, perform_growing};
use script::WordTriple;
use std::io;
use store::RelationTable;
use trie_list::TrieList;

// How many link numbers there are.
const LINKS: usize = 16;

// What the program holds side by side for the calls: a list, its link table and an array of tallies.
#[derive(Drop)]
struct Holdings {
    list: TrieList,
    table: RelationTable,
    records: Vec<Tally>,
}

impl Holdings {
    // Makes one call and answers what it replies.
    fn call(&mut self, request: GrowingRequest<'_, u8, Tally>) -> Result<Reply<Tally>, Refusal> {
        let mut rows: [LinkRow; 0] = [];
        let records = self.records.as_mut_slice();
        perform_growing(&mut self.table, &mut self.list, records, &mut rows, request)
    }

    // The cell of the leaf of each link number, 0 for a number without one.
    fn leaves(&self) -> [u32; LINKS] {
        let mut leaves = [0u32; LINKS];
        for (leaf, cell) in leaves.iter_mut().zip(self.table.links().index()) {
            *leaf = *cell;
        }
        leaves
    }
}

// Prints what a call replied.
fn show(rt: &HostRuntime, what: &str, reply: Result<Reply<Tally>, Refusal>) -> io::Result<()> {
    match reply {
        Ok(Reply::Linked(link)) => {
            let (x, y, number) = (link.x, link.y, link.number);
            println!(rt; "{what}: words {x} and {y}, link {number}")
        }
        Ok(Reply::Deleted(number)) => println!(rt; "{what}: link {number} is taken back"),
        Ok(Reply::Read(reading)) => {
            let (x, y, relation, count) = (
                reading.triple.x,
                reading.triple.y,
                reading.triple.relation,
                reading.record.count,
            );
            println!(rt; "{what}: words {x} and {y}, relation {relation}, count {count}")
        }
        Ok(Reply::Counted(figures)) => {
            let (triples, cells) = (figures.triples, figures.cells);
            println!(rt; "{what}: {triples} triples, {cells} link cells in use")
        }
        Ok(_) => println!(rt; "{what}: ok"),
        Err(refusal) => {
            let report = refusal.report();
            println!(rt; "{what}: no {report}")
        }
    }
}

// Makes one call and prints what it replied.
fn ask(
    rt: &HostRuntime,
    holdings: &mut Holdings,
    what: &str,
    request: GrowingRequest<'_, u8, Tally>,
) -> io::Result<()> {
    show(rt, what, holdings.call(request))
}

// Prints each link number whose leaf has moved, and what reading it gives.
fn show_moves(rt: &HostRuntime, holdings: &mut Holdings, before: &[u32; LINKS]) -> io::Result<()> {
    let after = holdings.leaves();
    for (place, (old, new)) in before.iter().zip(after.iter()).enumerate() {
        if *old != 0 && *new != 0 && *old != *new {
            let link = place as u32 + 1;
            print!(rt; "  link {link} moved from cell {old} to cell {new}; ")?;
            ask(rt, holdings, "it reads", Request::Read { link }.into())?;
        }
    }
    Ok(())
}

// Adds the pairs, and prints what moved after each.
fn add_pairs(rt: &HostRuntime, holdings: &mut Holdings) -> io::Result<()> {
    let pairs: [(&[u8], &[u8], u8, u32); 8] = [
        (b"rain", b"coat", 4, 3),
        (b"rain", b"bow", 4, 1),
        (b"rain", b"coat", 5, 7),
        (b"bow", b"tie", 4, 2),
        (b"coat", b"rain", 4, 9),
        (b"rain", b"rain", 255, 5),
        (b"tie", b"bow", 1, 4),
        (b"rain", b"tie", 6, 8),
    ];
    for (x, y, relation, count) in pairs {
        let before = holdings.leaves();
        let words = WordTriple { x, relation, y };
        let record = Tally { count };
        ask(rt, holdings, "add", GrowingRequest::Add { words, record })?;
        show_moves(rt, holdings, &before)?;
    }
    Ok(())
}

// Deletes a pair, changes a record, ties a new pair and the deleted one, and prints what moved.
fn take_and_tie(rt: &HostRuntime, holdings: &mut Holdings) -> io::Result<()> {
    let bow = WordTriple {
        x: b"rain",
        relation: 4,
        y: b"bow",
    };
    let coat = WordTriple {
        x: b"bow",
        relation: 9,
        y: b"coat",
    };
    let record = Tally { count: 6 };
    let changed = Tally { count: 70 };
    let requests = [
        ("delete", Request::Delete { words: bow }),
        ("delete again", Request::Delete { words: bow }),
        (
            "change",
            Request::Change {
                link: 3,
                record: changed,
            },
        ),
        (
            "tie",
            Request::Tie {
                words: coat,
                record,
            },
        ),
        ("tie", Request::Tie { words: bow, record }),
    ];
    let before = holdings.leaves();
    for (what, request) in requests {
        ask(rt, holdings, what, request.into())?;
    }
    show_moves(rt, holdings, &before)
}

// Prints what the numbers 1 to 10 give.
fn show_all(rt: &HostRuntime, holdings: &mut Holdings) -> io::Result<()> {
    for link in 1..11 {
        print!(rt; "link {link} ")?;
        ask(rt, holdings, "reads", Request::Read { link }.into())?;
    }
    Ok(())
}

fn main(rt: HostRuntime) -> anyhow::Result<()> {
    let heap = rt.alloc();
    let list = TrieList::new(vec![in heap; Cell::FREE; 1024]?, vec![in heap; 0u32; 64]?);
    let records = vec![in heap; Tally { count: 0 }; LINKS]?;
    let cells = vec![in heap; Cell::FREE; 600]?;
    let table = RelationTable::new::<u8, TrieList, Tally>(
        &list,
        records.as_slice(),
        cells,
        vec![in heap; 0u32; LINKS]?,
    );
    let mut holdings = Holdings {
        list,
        table,
        records,
    };
    add_pairs(&rt, &mut holdings)?;
    take_and_tie(&rt, &mut holdings)?;
    show_all(&rt, &mut holdings)?;
    ask(&rt, &mut holdings, "figures", Request::Figures.into())?;
    Ok(())
}

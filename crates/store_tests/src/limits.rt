// Stores at their limits.
use super::making::{table, words};
use history::{Figures, Link};
use lexicon::{GrowingList, ReadableList};
use link_table::Triple;
use plain_list::PlainList;
use record::{Score, Tally};
use refusal::Refusal;
use script::WordTriple;
use std::alloc::{AllocError, AllocGlobal, Global};
use std::process::Abort;
use std::test::Fail;
use store::RelationTable;

const ONE: Tally = Tally { count: 1 };

fn plain(heap: Global, places: usize) -> Result<PlainList, AllocError> {
    Ok(PlainList::new(vec![in heap; 0u8; 2000]?, vec![in heap; 0u8; places]?))
}

// The numbers that a new link has.
fn link(x: u16, y: u16, number: u32) -> Result<Link, Refusal> {
    Ok(Link { x, y, number })
}

// What `figures` is to answer: so many triples, and so many cells.
fn figures(triples: usize, cells: usize) -> Figures {
    Figures { triples, cells }
}

#[test]
fn no_number_and_no_cell(rt: HostRuntime) -> Result<(), Fail> {
    let heap = rt.alloc();
    let ab = words(b"a", 1, b"b");
    let mut list = plain(heap, 4)?;
    let mut none: [Tally; 0] = [];
    let mut without = table(heap, &list, &none, 100, 4)?;
    let added = without.add(&mut list, &mut none, ab, ONE);
    assert_eq!(rt; added, Err(Refusal::NumbersHeld));
    assert_eq!(rt; list.count(), 2);
    let tied = without.tie(&list, &mut none, ab, ONE);
    assert_eq!(rt; tied, Err(Refusal::NumbersHeld));
    assert_eq!(rt; without.figures(), figures(0, 1));
    let mut neither = table(heap, &list, &none, 0, 4)?;
    let tied = neither.tie(&list, &mut none, ab, ONE);
    assert_eq!(rt; tied, Err(Refusal::NumbersHeld));
    let mut records = [ONE; 2];
    let mut bare = table(heap, &list, &records, 0, 2)?;
    let tied = bare.tie(&list, &mut records, ab, ONE);
    assert_eq!(rt; tied, Err(Refusal::NoPlace));
    assert_eq!(rt; bare.figures(), figures(0, 0));
    let mut single = table(heap, &list, &records, 1, 2)?;
    let tied = single.tie(&list, &mut records, ab, ONE);
    assert_eq!(rt; tied, Err(Refusal::NoPlace));
    assert_eq!(rt; single.find(&list, ab), Ok(None));
    assert_eq!(rt; single.figures(), figures(0, 0));
    Ok(())
}

#[test]
fn a_full_table_tells_what_is_present(rt: HostRuntime) -> Result<(), Fail> {
    let heap = rt.alloc();
    let (ab, ba) = (words(b"a", 1, b"b"), words(b"b", 1, b"a"));
    let mut list = plain(heap, 4)?;
    let mut records = [ONE; 1];
    let mut links = table(heap, &list, &records, 100, 1)?;
    let cases = [
        (ab, link(1, 2, 1)),
        (ab, Err(Refusal::TriplePresent)),
        (ba, Err(Refusal::NumbersHeld)),
    ];
    for (words, answer) in cases {
        let added = links.add(&mut list, &mut records, words, ONE);
        assert_eq!(&rt; added, answer);
    }
    Ok(())
}

// The ties in a new store of so many link cells get these answers, and then figures answers this.
fn tied(
    rt: &(impl Abort + AllocGlobal),
    list: &PlainList,
    cells: usize,
    ties: &[(WordTriple<'_, u8>, Result<Link, Refusal>)],
    after: Figures,
) -> Result<RelationTable, Fail> {
    let mut records = [ONE; 3];
    let mut links = table(rt.alloc(), list, &records, cells, 3)?;
    for (words, answer) in ties {
        assert_eq!(rt; links.tie(list, &mut records, *words, ONE), *answer);
    }
    assert_eq!(rt; links.figures(), after);
    Ok(links)
}

#[test]
fn ties_in_few_cells(rt: HostRuntime) -> Result<(), Fail> {
    let mut list = plain(rt.alloc(), 3)?;
    for (word, number) in [(b"a", 1), (b"b", 2), (b"c", 3)] {
        assert_eq!(&rt; list.enter(word), Ok(number));
    }
    let none = Err(Refusal::NoPlace);
    let one = (words(b"a", 4, b"b"), link(1, 2, 1));
    let two = (words(b"a", 5, b"b"), link(1, 2, 2));
    let three = (words(b"a", 4, b"c"), link(1, 3, 3));
    tied(&rt, &list, 8, &[one], figures(1, 6))?;
    tied(&rt, &list, 7, &[(one.0, none)], figures(0, 1))?;
    tied(&rt, &list, 12, &[one, two, (three.0, none)], figures(2, 9))?;
    let mut links = tied(&rt, &list, 13, &[one, two, three], figures(3, 10))?;
    assert_eq!(rt; links.delete(&list, two.0), Ok(2));
    assert_eq!(rt; links.figures(), figures(2, 7));
    Ok(())
}

#[test]
fn a_word_and_itself(rt: HostRuntime) -> Result<(), Fail> {
    let heap = rt.alloc();
    let mut list = plain(heap, 4)?;
    let mut records = [ONE; 3];
    let mut links = table(heap, &list, &records, 600, 8)?;
    assert_eq!(rt;
        links.add(&mut list, &mut records, words(b"a", 255, b"a"), ONE),
        link(1, 1, 1)
    );
    assert_eq!(rt;
        links.tie(&list, &mut records, words(b"a", 1, b"a"), ONE),
        link(1, 1, 2)
    );
    assert_eq!(rt; list.count(), 1);
    let found = links.find(&list, words(b"a", 255, b"a"));
    assert_eq!(rt; found, link(1, 1, 1).map(Some));
    Ok(())
}

// Fills a table of two numbers, empties it and fills it again.
fn filled(rt: &impl Abort, links: &mut RelationTable, list: &mut PlainList, records: &mut [Score]) {
    let sure = Score::Chance(1.0);
    let (ab, ba, bb) = (
        words(b"a", 4, b"b"),
        words(b"b", 4, b"a"),
        words(b"b", 4, b"b"),
    );
    let cases = [
        (ab, sure, link(1, 2, 1)),
        (ba, Score::Band(0.25, 0.5), link(2, 1, 2)),
        (bb, sure, Err(Refusal::NumbersHeld)),
        (bb, Score::Cost(-1.0), Err(Refusal::RecordUnsound)),
    ];
    for (words, record, answer) in cases {
        assert_eq!(rt; links.add(list, records, words, record), answer);
    }
    assert_eq!(rt; links.delete(list, ab), Ok(1));
    let tied = links.tie(list, records, bb, Score::Cost(12.5));
    assert_eq!(rt; tied, link(2, 2, 1));
    assert_eq!(rt; links.change(records, 2, Score::Chance(0.5)), Ok(()));
    let reading = links
        .read(records, 2)
        .map(|reading| (reading.triple, reading.record));
    let triple = Triple {
        x: 2,
        relation: 4,
        y: 1,
    };
    assert!(rt; matches!(&reading, Ok((read, Score::Chance(0.5))) if *read == triple));
}

#[test]
fn records_and_index_of_other_lengths(rt: HostRuntime) -> Result<(), Fail> {
    let heap = rt.alloc();
    let mut list = plain(heap, 4)?;
    let mut more = [Score::Cost(0.0); 5];
    let mut short_index = table(heap, &list, &more, 600, 2)?;
    filled(&rt, &mut short_index, &mut list, &mut more);
    let mut fresh = plain(heap, 4)?;
    let mut few = [Score::Cost(0.0); 2];
    let mut few_records = table(heap, &fresh, &few, 600, 5)?;
    filled(&rt, &mut few_records, &mut fresh, &mut few);
    Ok(())
}

// Where the children of the root stand.
fn root_base(links: &RelationTable) -> Option<i32> {
    links.links().cells().get(1).map(|cell| cell.base)
}

#[test]
fn numbers_above_255(rt: HostRuntime) -> Result<(), Fail> {
    let heap = rt.alloc();
    let mut list = plain(heap, 300)?;
    for upper in 0..2u8 {
        for lower in 0..150u8 {
            let _ = list.enter(&[upper, lower]);
        }
    }
    let (low, high) = (
        words(&[0u8, 0], 1, &[0u8, 1]),
        words(&[1u8, 149], 1, &[1u8, 148]),
    );
    let back = words(&[1u8, 149], 1, &[0u8, 0]);
    let mut records = [ONE; 4];
    let mut links = table(heap, &list, &records, 900, 4)?;
    let cases = [
        (low, link(1, 2, 1), Some(1)),
        (high, link(300, 299, 2), Some(6)),
        (back, link(300, 1, 3), Some(6)),
    ];
    for (words, answer, base) in cases {
        assert_eq!(&rt; links.tie(&list, &mut records, words, ONE), answer);
        assert_eq!(&rt; root_base(&links), base);
    }
    assert_eq!(rt; links.find(&list, low), link(1, 2, 1).map(Some));
    assert_eq!(rt; links.delete(&list, high), Ok(2));
    assert_eq!(rt; links.find(&list, back), link(300, 1, 3).map(Some));
    assert_eq!(rt; links.figures(), figures(2, 11));
    Ok(())
}

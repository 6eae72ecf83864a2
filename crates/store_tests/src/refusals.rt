// The refusals of each call in their places, also where two apply at once; that all numbers are held
// is in limits.rt.
use super::making::{table, words};
use cells::Cell;
use history::{Figures, Link, Reading};
use lexicon::{GrowingList, ReadableList};
use link_table::Triple;
use listing::LinkRow;
use plain_list::PlainList;
use record::Tally;
use refusal::{Refusal, Side};
use std::process::Abort;
use std::test::Fail;
use store::RelationTable;
use trie_list::TrieList;

const ONE: Tally = Tally { count: 1 };

const NONE: Tally = Tally { count: 0 };

const LONG: [u8; 33] = [5; 33];

type Linked = Result<Link, Refusal>;

const FIRST: Link = Link {
    x: 1,
    y: 2,
    number: 1,
};

// Adds to a store with places for three words, two links and eight link cells.
fn adds<L: GrowingList>(
    rt: &impl Abort,
    table: &mut RelationTable,
    list: &mut L,
    records: &mut [Tally],
) {
    let cases: [(&[u8], &[u8], u8, Tally, Linked); 10] = [
        (b"", b"", 0, NONE, Err(Refusal::WordLength(Side::First))),
        (&LONG, b"", 0, NONE, Err(Refusal::WordLength(Side::First))),
        (b"a", b"", 0, NONE, Err(Refusal::WordLength(Side::Second))),
        (b"a", &LONG, 0, NONE, Err(Refusal::WordLength(Side::Second))),
        (b"a", b"b", 0, NONE, Err(Refusal::RelationZero)),
        (b"a", b"b", 4, NONE, Err(Refusal::RecordUnsound)),
        (b"a", b"b", 4, ONE, Ok(FIRST)),
        (b"a", b"b", 4, ONE, Err(Refusal::TriplePresent)),
        (b"a", b"c", 4, ONE, Err(Refusal::NoPlace)),
        (b"a", b"d", 4, ONE, Err(Refusal::NoRoom(Side::Second))),
    ];
    for (x, y, relation, record, answer) in cases {
        assert_eq!(rt;
            table.add(list, records, words(x, relation, y), record),
            answer
        );
    }
    assert_eq!(rt;
        table.add(list, records, words(b"d", 4, b"e"), ONE),
        Err(Refusal::NoRoom(Side::First))
    );
}

// Ties in the same store.
fn ties<L: GrowingList>(
    rt: &impl Abort,
    table: &mut RelationTable,
    list: &L,
    records: &mut [Tally],
) {
    let cases: [(&[u8], &[u8], u8, Tally, Linked); 9] = [
        (b"", &LONG, 0, NONE, Err(Refusal::WordLength(Side::First))),
        (b"x", &LONG, 0, NONE, Err(Refusal::WordLength(Side::Second))),
        (b"x", b"y", 0, NONE, Err(Refusal::RelationZero)),
        (b"x", b"y", 4, NONE, Err(Refusal::RecordUnsound)),
        (b"x", b"y", 4, ONE, Err(Refusal::UnknownWord(Side::First))),
        (b"a", b"y", 4, ONE, Err(Refusal::UnknownWord(Side::Second))),
        (b"x", b"b", 4, ONE, Err(Refusal::UnknownWord(Side::First))),
        (b"a", b"b", 4, ONE, Err(Refusal::TriplePresent)),
        (b"b", b"a", 4, ONE, Err(Refusal::NoPlace)),
    ];
    for (x, y, relation, record, answer) in cases {
        assert_eq!(rt;
            table.tie(list, records, words(x, relation, y), record),
            answer
        );
    }
}

// Reads and changes in the same store.
fn reads(rt: &impl Abort, table: &mut RelationTable, records: &mut [Tally]) {
    assert_eq!(rt; table.read(records, 0), Err(Refusal::UnknownLink));
    assert_eq!(rt; table.read(records, 2), Err(Refusal::UnknownLink));
    assert_eq!(rt; table.change(records, 2, NONE), Err(Refusal::UnknownLink));
    assert_eq!(rt; table.change(records, 1, NONE), Err(Refusal::RecordUnsound));
    assert_eq!(rt; table.change(records, 1, Tally { count: 7 }), Ok(()));
    let triple = Triple {
        x: 1,
        relation: 4,
        y: 2,
    };
    let record = Tally { count: 7 };
    assert_eq!(rt; table.read(records, 1), Ok(Reading { triple, record }));
}

// Lists in the same store.
fn lists<L: GrowingList>(rt: &impl Abort, table: &RelationTable, list: &L) {
    let cases: [(&[u8], Result<usize, Refusal>); 4] = [
        (&LONG, Err(Refusal::WordLength(Side::First))),
        (b"x", Err(Refusal::UnknownWord(Side::First))),
        (b"a", Err(Refusal::OutputTooShort)),
        (b"b", Ok(0)),
    ];
    let mut none: [LinkRow; 0] = [];
    for (x, answer) in cases {
        assert_eq!(rt; table.list(list, x, 0, &mut none), answer);
    }
    let before = LinkRow {
        relation: 9,
        y: 9,
        link: 9,
    };
    let row = LinkRow {
        relation: 4,
        y: 2,
        link: 1,
    };
    let mut rows = [before; 2];
    assert_eq!(rt; table.list(list, b"a", 4, &mut rows), Ok(1));
    assert_eq!(rt; rows[0], row);
    assert_eq!(rt; rows[1], before);
}

// Finds in the same store.
fn finds<L: GrowingList>(rt: &impl Abort, table: &RelationTable, list: &L) {
    let cases: [(&[u8], &[u8], u8, Result<Option<Link>, Refusal>); 7] = [
        (b"", b"", 0, Err(Refusal::WordLength(Side::First))),
        (b"x", b"", 0, Err(Refusal::WordLength(Side::Second))),
        (b"x", b"y", 0, Err(Refusal::RelationZero)),
        (b"x", b"b", 4, Ok(None)),
        (b"a", b"y", 4, Ok(None)),
        (b"a", b"b", 5, Ok(None)),
        (b"a", b"b", 4, Ok(Some(FIRST))),
    ];
    for (x, y, relation, answer) in cases {
        assert_eq!(rt; table.find(list, words(x, relation, y)), answer);
    }
    assert_eq!(rt; table.link_of(list, words(b"a", 4, b"b")), Ok(FIRST));
}

// Deletes in the same store.
fn deletes<L: GrowingList>(rt: &impl Abort, table: &mut RelationTable, list: &L) {
    let cases: [(&[u8], &[u8], u8, Result<u32, Refusal>); 8] = [
        (b"", b"", 0, Err(Refusal::WordLength(Side::First))),
        (b"x", b"", 0, Err(Refusal::WordLength(Side::Second))),
        (b"x", b"y", 0, Err(Refusal::RelationZero)),
        (b"x", b"y", 4, Err(Refusal::UnknownWord(Side::First))),
        (b"a", b"y", 4, Err(Refusal::UnknownWord(Side::Second))),
        (b"a", b"b", 5, Err(Refusal::TripleAbsent)),
        (b"a", b"b", 4, Ok(1)),
        (b"a", b"b", 4, Err(Refusal::TripleAbsent)),
    ];
    for (x, y, relation, answer) in cases {
        assert_eq!(rt; table.delete(list, words(x, relation, y)), answer);
    }
    let empty = Figures {
        triples: 0,
        cells: 1,
    };
    assert_eq!(rt; table.figures(), empty);
}

fn tried<L: GrowingList>(rt: &(impl Abort + AllocGlobal), list: &mut L) -> Result<(), Fail> {
    let mut records = [NONE; 2];
    let mut links = table(rt.alloc(), list, &records, 8, 2)?;
    adds(rt, &mut links, list, &mut records);
    ties(rt, &mut links, list, &mut records);
    assert_eq!(rt; records[0].count, 1);
    reads(rt, &mut links, &mut records);
    lists(rt, &links, list);
    finds(rt, &links, list);
    deletes(rt, &mut links, list);
    Ok(())
}

#[test]
fn refusals_over_both_lists(rt: HostRuntime) -> Result<(), Fail> {
    let heap = rt.alloc();
    let mut plain = PlainList::new(vec![in heap; 0u8; 200]?, vec![in heap; 0u8; 3]?);
    tried(&rt, &mut plain)?;
    let mut trie = TrieList::new(vec![in heap; Cell::FREE; 300]?, vec![in heap; 0u32; 3]?);
    tried(&rt, &mut trie)
}

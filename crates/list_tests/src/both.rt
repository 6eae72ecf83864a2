// One text over both lists: the same words get the same answers.
use cells::Cell;
use lexicon::{GrowingList, ListFault, ReadableList};
use plain_list::PlainList;
use std::process::Abort;
use std::test::Fail;
use trie_list::TrieList;

// Enters words into a list with places for four.
fn entered<L: GrowingList>(rt: &impl Abort, list: &mut L) {
    let long = [3u8; 129];
    let cases: [(&[u8], Result<u16, ListFault>); 9] = [
        (b"rain", Ok(1)),
        (b"rainbow", Ok(2)),
        (b"rain", Ok(1)),
        (b"", Err(ListFault::WordLength)),
        (&long, Err(ListFault::WordLength)),
        (&long[0..128], Ok(3)),
        (b"bow", Ok(4)),
        (b"coat", Err(ListFault::NoRoom)),
        (b"bow", Ok(4)),
    ];
    for (word, answer) in cases {
        assert_eq!(rt; list.enter(word), answer);
    }
    assert_eq!(rt; list.count(), 4);
}

// Finds words, by any readable list.
fn found<L: ReadableList>(rt: &impl Abort, list: &L) {
    let cases: [(&[u8], Result<Option<u16>, ListFault>); 4] = [
        (b"rainbow", Ok(Some(2))),
        (b"rainb", Ok(None)),
        (b"rainbows", Ok(None)),
        (b"", Err(ListFault::WordLength)),
    ];
    for (word, answer) in cases {
        assert_eq!(rt; list.find(word), answer);
    }
}

// Spells words into an output of seven bytes.
fn spelled<L: ReadableList>(rt: &impl Abort, list: &L) {
    let cases = [
        (0, Err(ListFault::UnknownWord)),
        (5, Err(ListFault::UnknownWord)),
        (3, Err(ListFault::OutputTooShort)),
        (2, Ok(7)),
        (4, Ok(3)),
    ];
    let mut out = [0u8; 7];
    for (number, answer) in cases {
        assert_eq!(rt; list.spell(number, &mut out), answer);
    }
    assert!(rt; out == *b"bownbow");
}

fn tried<L: GrowingList>(rt: &impl Abort, list: &mut L) {
    entered(rt, list);
    found(rt, list);
    spelled(rt, list);
}

#[test]
fn both_lists_answer_alike(rt: HostRuntime) -> Result<(), Fail> {
    let heap = rt.alloc();
    let mut plain = PlainList::new(vec![in heap; 0u8; 200]?, vec![in heap; 0u8; 4]?);
    tried(&rt, &mut plain);
    let mut trie = TrieList::new(vec![in heap; Cell::FREE; 1000]?, vec![in heap; 0u32; 4]?);
    tried(&rt, &mut trie);
    Ok(())
}

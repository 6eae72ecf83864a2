// The trie list: its cells by example, small arrays, a full index.
use cells::Cell;
use entry::{WordEntry, enter_word};
use lexicon::{GrowingList, ListFault, ReadableList};
use script::{MorphemeClass, MorphemeSign, Script};
use std::alloc::{AllocError, Global};
use std::process::Abort;
use std::test::Fail;
use trie_list::TrieList;

// A list over so many cells and index places, all with some content.
fn list(heap: Global, cells: usize, index: usize) -> Result<TrieList, AllocError> {
    let cell = Cell { base: 7, check: -7 };
    Ok(TrieList::new(vec![in heap; cell; cells]?, vec![in heap; 9u32; index]?))
}

// The cell at a place, and a free one past the end.
fn cell(words: &TrieList, at: usize) -> (i32, i32) {
    words
        .cells()
        .get(at)
        .map_or((0, 0), |cell| (cell.base, cell.check))
}

// The cells hold these pairs at these places.
fn holds(rt: &impl Abort, words: &TrieList, wanted: &[(usize, (i32, i32))]) {
    for (at, pair) in wanted {
        assert_eq!(rt; cell(words, *at), *pair);
    }
}

// The words get these answers.
fn entered(rt: &impl Abort, words: &mut TrieList, cases: &[(&[u8], Result<u16, ListFault>)]) {
    for (word, answer) in cases {
        assert_eq!(rt; words.enter(word), *answer);
    }
}

#[test]
fn a_family_moves(rt: HostRuntime) -> Result<(), Fail> {
    let mut words = list(rt.alloc(), 104, 3)?;
    entered(
        &rt,
        &mut words,
        &[
            (b"a", Ok(1)),
            (b"b", Ok(2)),
            (b"ab", Ok(3)),
            (b"c", Err(ListFault::NoRoom)),
        ],
    );
    let wanted = [
        (1, (1, 1)),
        (2, (-3, 103)),
        (3, (-2, 101)),
        (4, (-1, 100)),
        (5, (0, 0)),
        (100, (3, 1)),
        (101, (2, 1)),
        (102, (0, 0)),
        (103, (1, 100)),
    ];
    holds(&rt, &words, &wanted);
    assert!(rt; words.index() == [4u32, 3, 2].as_slice());
    assert_eq!(rt; words.find(b"a"), Ok(Some(1)));
    assert_eq!(rt; words.find(b"abc"), Ok(None));
    Ok(())
}

#[test]
fn a_word_without_a_place_leaves_the_cells(rt: HostRuntime) -> Result<(), Fail> {
    let mut words = list(rt.alloc(), 103, 3)?;
    entered(
        &rt,
        &mut words,
        &[
            (b"a", Ok(1)),
            (b"b", Ok(2)),
            (b"ab", Err(ListFault::NoRoom)),
        ],
    );
    let wanted = [
        (1, (1, 1)),
        (2, (-1, 100)),
        (3, (-2, 101)),
        (4, (0, 0)),
        (100, (1, 1)),
        (101, (2, 1)),
        (102, (0, 0)),
    ];
    holds(&rt, &words, &wanted);
    assert!(rt; words.index() == [2u32, 3, 0].as_slice());
    Ok(())
}

#[test]
fn small_arrays_have_no_room(rt: HostRuntime) -> Result<(), Fail> {
    for (cells, index) in [(0, 3), (1, 3), (2, 3), (100, 3), (300, 0)] {
        let mut words = list(rt.alloc(), cells, index)?;
        assert_eq!(rt; words.cells().len(), cells);
        assert_eq!(rt; words.index().len(), index);
        assert_eq!(rt; words.enter(b"a"), Err(ListFault::NoRoom));
        assert_eq!(rt; words.find(b"a"), Ok(None));
        assert_eq!(rt; words.count(), 0);
    }
    Ok(())
}

#[test]
fn arrays_are_kept_up_to_their_limits(rt: HostRuntime) -> Result<(), Fail> {
    // Cells and index places that are given, and those that the list has.
    let cases = [
        (101, 1, 101, 1),
        (1_048_575, 65_534, 1_048_575, 65_534),
        (1_048_576, 65_535, 1_048_576, 65_535),
        (1_048_577, 65_536, 1_048_576, 65_535),
        (101, 65_540, 101, 65_535),
    ];
    for (cells, index, cells_kept, index_kept) in cases {
        let mut words = list(rt.alloc(), cells, index)?;
        assert_eq!(rt; words.cells().len(), cells_kept);
        assert_eq!(rt; words.index().len(), index_kept);
        assert_eq!(rt; words.enter(b"a"), Ok(1));
        assert_eq!(rt; words.count(), 1);
        holds(&rt, &words, &[(1, (1, 1)), (2, (-1, 100)), (100, (1, 1))]);
        assert!(rt; words.index().starts_with(&[2]));
    }
    Ok(())
}

#[test]
fn any_bytes_and_any_script(rt: HostRuntime) -> Result<(), Fail> {
    let mut words = list(rt.alloc(), 3000, 8)?;
    entered(
        &rt,
        &mut words,
        &[
            (&[0, 255], Ok(1)),
            (&[0], Ok(2)),
            (&[255], Ok(3)),
            (&[0, 255], Ok(1)),
        ],
    );
    assert_eq!(rt; enter_word(&mut words, &[255u16]), Ok(WordEntry::Known(1)));
    assert_eq!(rt;
        enter_word(&mut words, &[0x65e5u16, 0x672c]),
        Ok(WordEntry::New(4))
    );
    let noun = MorphemeSign {
        class: MorphemeClass::Noun,
        form: 258,
    };
    assert_eq!(rt;
        enter_word(&mut words, &[noun, noun]),
        Ok(WordEntry::New(5))
    );
    let mut out = [9u8; 7];
    assert_eq!(rt; words.spell(5, &mut out), Ok(6));
    assert!(rt; out == [5, 1, 2, 5, 1, 2, 9]);
    Ok(())
}

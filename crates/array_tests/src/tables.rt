// Tests of the link table on small arrays.
use cells::Cell;
use link_table::{LinkFault, LinkTable, Triple};
use std::alloc::{AllocError, Global};
use std::test::Fail;

const FIRST: Triple = Triple {
    x: 1,
    relation: 4,
    y: 2,
};

const SECOND: Triple = Triple {
    x: 1,
    relation: 5,
    y: 2,
};

const THIRD: Triple = Triple {
    x: 1,
    relation: 4,
    y: 3,
};

// A table over so many cells and index entries, all with some content, for so many records.
fn made(heap: Global, cells: usize, index: usize, records: usize) -> Result<LinkTable, AllocError> {
    let cells = vec![in heap; Cell { base: 9, check: 9 }; cells]?;
    let index = vec![in heap; 7u32; index]?;
    Ok(LinkTable::new(cells, index, records))
}

// A table over so many cells, with places for three links.
fn table(heap: Global, cells: usize) -> Result<LinkTable, AllocError> {
    made(heap, cells, 3, 5)
}

// How many link numbers a table of two cells has, and how many index entries it keeps.
fn kept(heap: Global, index: usize, records: usize) -> Result<(usize, usize), AllocError> {
    let links = made(heap, 2, index, records)?;
    Ok((links.limit(), links.index().len()))
}

#[test]
fn link_numbers_go_up_to_the_shorter(rt: HostRuntime) -> Result<(), Fail> {
    assert_eq!(rt; kept(rt.alloc(), 0, 5)?, (0, 0));
    assert_eq!(rt; kept(rt.alloc(), 5, 0)?, (0, 0));
    assert_eq!(rt; kept(rt.alloc(), 3, 5)?, (3, 3));
    assert_eq!(rt; kept(rt.alloc(), 5, 3)?, (3, 3));
    assert_eq!(rt;
        kept(rt.alloc(), 1_048_574, 1_048_576)?,
        (1_048_574, 1_048_574)
    );
    assert_eq!(rt;
        kept(rt.alloc(), 1_048_576, 1_048_574)?,
        (1_048_574, 1_048_574)
    );
    Ok(())
}

// Cells past 1,048,576 are given up, and none but the root is in use.
#[test]
fn cells_past_the_limit_are_given_up(rt: HostRuntime) -> Result<(), Fail> {
    for (given, left) in [
        (0, 0),
        (1, 1),
        (1_048_575, 1_048_575),
        (1_048_576, 1_048_576),
        (1_048_577, 1_048_576),
    ] {
        let links = made(rt.alloc(), given, 3, 3)?;
        assert_eq!(rt; links.cells().len(), left);
        assert_eq!(rt; links.in_use(), left.min(2) / 2);
    }
    Ok(())
}

#[test]
fn link_numbers_past_the_limit_are_given_up(rt: HostRuntime) -> Result<(), Fail> {
    assert_eq!(rt;
        kept(rt.alloc(), 1_048_575, 1_048_575)?,
        (1_048_575, 1_048_575)
    );
    assert_eq!(rt;
        kept(rt.alloc(), 1_048_575, 1_048_576)?,
        (1_048_575, 1_048_575)
    );
    assert_eq!(rt;
        kept(rt.alloc(), 1_048_576, 1_048_575)?,
        (1_048_575, 1_048_575)
    );
    assert_eq!(rt;
        kept(rt.alloc(), 1_048_576, 1_048_576)?,
        (1_048_575, 1_048_575)
    );
    assert_eq!(rt; LinkTable::MAX_LINKS, 1_048_575);
    Ok(())
}

#[test]
fn no_number_and_one_number(rt: HostRuntime) -> Result<(), Fail> {
    let mut none = made(rt.alloc(), 13, 0, 5)?;
    assert_eq!(rt; none.put(FIRST), Err(LinkFault::NumbersHeld));
    let mut one = made(rt.alloc(), 13, 5, 1)?;
    assert_eq!(rt; one.put(FIRST), Ok(1));
    assert_eq!(rt; one.put(SECOND), Err(LinkFault::NumbersHeld));
    assert_eq!(rt; one.take(FIRST), Ok(1));
    assert_eq!(rt; one.put(SECOND), Ok(1));
    Ok(())
}

#[test]
fn one_code_takes_six_cells(rt: HostRuntime) -> Result<(), Fail> {
    let mut links = table(rt.alloc(), 8)?;
    assert_eq!(rt; links.put(FIRST), Ok(1));
    assert_eq!(rt; links.put(FIRST), Err(LinkFault::TriplePresent));
    assert_eq!(rt; links.in_use(), 6);
    assert_eq!(rt; links.triple_of(1), Some(FIRST));
    assert_eq!(rt; links.triple_of(2), None);
    let mut short = table(rt.alloc(), 7)?;
    assert_eq!(rt; short.put(FIRST), Err(LinkFault::NoPlace));
    assert_eq!(rt; short.count(), 0);
    Ok(())
}

#[test]
fn three_codes_take_ten_cells(rt: HostRuntime) -> Result<(), Fail> {
    let mut links = table(rt.alloc(), 13)?;
    for triple in [FIRST, SECOND, THIRD] {
        assert!(rt; links.put(triple).is_ok());
    }
    assert_eq!(rt; links.in_use(), 10);
    assert_eq!(rt;
        links.put(Triple {
            x: 9,
            relation: 9,
            y: 9,
        }),
        Err(LinkFault::NumbersHeld)
    );
    assert_eq!(rt; links.take(SECOND), Ok(2));
    assert_eq!(rt; links.take(SECOND), Err(LinkFault::TripleAbsent));
    assert_eq!(rt; links.in_use(), 7);
    assert_eq!(rt; links.link_number(THIRD), Some(3));
    assert_eq!(rt; links.count(), 2);
    Ok(())
}

#[test]
fn the_third_code_has_no_place(rt: HostRuntime) -> Result<(), Fail> {
    let mut links = table(rt.alloc(), 12)?;
    assert_eq!(rt; links.put(FIRST), Ok(1));
    assert_eq!(rt; links.put(SECOND), Ok(2));
    assert_eq!(rt; links.put(THIRD), Err(LinkFault::NoPlace));
    assert_eq!(rt; links.in_use(), 9);
    assert_eq!(rt; links.link_number(SECOND), Some(2));
    assert_eq!(rt; links.limit(), 3);
    Ok(())
}

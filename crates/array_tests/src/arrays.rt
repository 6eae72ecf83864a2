// Runs of the double array on small examples.
use cells::Cell;
use double_array::{DoubleArray, NumberFault, PathFault};
use std::alloc::{AllocError, Global};
use std::test::Fail;

// A cell that is in use, by its place.
#[derive(Clone, Copy)]
struct Entry {
    place: usize,
    cell: Cell,
}

fn held(place: usize, base: i32, check: i32) -> Entry {
    Entry {
        place,
        cell: Cell { base, check },
    }
}

// An array over so many cells and index entries, all with some content before.
fn made(heap: Global, cells: usize, index: usize) -> Result<DoubleArray, AllocError> {
    let cells = vec![in heap; Cell { base: 7, check: -3 }; cells]?;
    let index = vec![in heap; 5; index]?;
    Ok(DoubleArray::new(cells, index))
}

// What the table says of the cell: free where it says nothing.
fn expected(table: &[Entry], place: usize) -> Cell {
    table
        .iter()
        .find(|entry| entry.place == place)
        .map_or(Cell::FREE, |entry| entry.cell)
}

// Whether the cells are as in the table, and all others free.
fn cells_are(array: &DoubleArray, table: &[Entry]) -> bool {
    array
        .cells()
        .iter()
        .enumerate()
        .all(|(place, cell)| *cell == expected(table, place))
}

#[test]
fn a_family_moves(rt: HostRuntime) -> Result<(), Fail> {
    let mut array = made(rt.alloc(), 104, 3)?;
    assert_eq!(rt; array.enter(&[99, 1], 1), Ok(()));
    assert_eq!(rt; array.enter(&[100, 1], 2), Ok(()));
    assert_eq!(rt; array.enter(&[99, 100, 1], 3), Ok(()));
    let table = [
        held(1, 1, 1),
        held(2, -3, 103),
        held(3, -2, 101),
        held(4, -1, 100),
        held(100, 3, 1),
        held(101, 2, 1),
        held(103, 1, 100),
    ];
    assert!(rt; cells_are(&array, &table));
    assert_eq!(rt; array.in_use(), 7);
    let mut out = [9; 4];
    assert_eq!(rt; array.path_of(3, &mut out), Ok(3));
    assert!(rt; out == [99, 100, 1, 9]);
    Ok(())
}

#[test]
fn no_place_for_a_family(rt: HostRuntime) -> Result<(), Fail> {
    let mut array = made(rt.alloc(), 103, 3)?;
    assert_eq!(rt; array.enter(&[99, 1], 1), Ok(()));
    assert_eq!(rt; array.enter(&[100, 1], 2), Ok(()));
    assert_eq!(rt; array.enter(&[99, 100, 1], 3), Err(PathFault::NoPlace));
    let table = [
        held(1, 1, 1),
        held(2, -1, 100),
        held(3, -2, 101),
        held(100, 1, 1),
        held(101, 2, 1),
    ];
    assert!(rt; cells_are(&array, &table));
    assert_eq!(rt; array.number_at(&[100, 1]), Some(2));
    Ok(())
}

#[test]
fn the_root_moves_its_family(rt: HostRuntime) -> Result<(), Fail> {
    let mut array = made(rt.alloc(), 8, 9)?;
    assert_eq!(rt; array.enter(&[3, 1], 7), Ok(()));
    let before = [held(1, 1, 1), held(2, -7, 4), held(4, 1, 1)];
    assert!(rt; cells_are(&array, &before));
    // The family of the root has moved when the second code has no place.
    assert_eq!(rt; array.enter(&[1, 200], 8), Err(PathFault::NoPlace));
    assert!(rt; cells_are(&array, &before));
    assert_eq!(rt; array.enter(&[1], 8), Ok(()));
    let after = [held(1, 2, 1), held(2, -7, 5), held(3, -8, 1), held(5, 1, 1)];
    assert!(rt; cells_are(&array, &after));
    assert_eq!(rt; array.number_at(&[3, 1]), Some(7));
    assert_eq!(rt; array.number_at(&[3]), None);
    Ok(())
}

#[test]
fn walked_by_a_code_and_by_a_path(rt: HostRuntime) -> Result<(), Fail> {
    let mut array = made(rt.alloc(), 8, 9)?;
    assert_eq!(rt; array.enter(&[3, 1], 7), Ok(()));
    assert_eq!(rt; array.child(1, 3), Some(4));
    assert_eq!(rt; array.child(4, 1), Some(2));
    assert_eq!(rt; array.child(1, 1), None);
    assert_eq!(rt; array.child(8, 1), None);
    assert_eq!(rt; array.cell_at(&[]), Some(1));
    assert_eq!(rt; array.cell_at(&[3, 1]), Some(2));
    assert_eq!(rt; array.cell_at(&[3, 300]), None);
    assert_eq!(rt; made(rt.alloc(), 1, 1)?.cell_at(&[]), None);
    Ok(())
}

#[test]
fn removed_to_the_root(rt: HostRuntime) -> Result<(), Fail> {
    let mut array = made(rt.alloc(), 8, 9)?;
    assert_eq!(rt; array.enter(&[3, 1], 7), Ok(()));
    assert_eq!(rt; array.enter(&[1], 8), Ok(()));
    assert_eq!(rt; array.remove(&[3]), None);
    assert_eq!(rt; array.remove(&[3, 1]), Some(7));
    assert!(rt; cells_are(&array, &[held(1, 2, 1), held(3, -8, 1)]));
    assert_eq!(rt; array.remove(&[1]), Some(8));
    assert!(rt; cells_are(&array, &[held(1, 1, 1)]));
    assert_eq!(rt; array.in_use(), 1);
    assert_eq!(rt; array.enter(&[1], 7), Ok(()));
    assert!(rt; cells_are(&array, &[held(1, 1, 1), held(2, -7, 1)]));
    Ok(())
}

#[test]
fn arrays_without_a_place(rt: HostRuntime) -> Result<(), Fail> {
    for cells in 0..3 {
        let mut array = made(rt.alloc(), cells, 1)?;
        assert_eq!(rt; array.enter(&[1], 1), Err(PathFault::NoPlace));
        assert_eq!(rt; array.number_at(&[1]), None);
        assert_eq!(rt; array.remove(&[1]), None);
        assert_eq!(rt; array.in_use(), cells / 2);
    }
    Ok(())
}

// How many cells are kept of so many that are given, and how many of them are in use.
fn kept(heap: Global, cells: usize) -> Result<(usize, usize), AllocError> {
    let array = made(heap, cells, 1)?;
    Ok((array.cells().len(), array.in_use()))
}

#[test]
fn cells_past_the_limit_are_given_up(rt: HostRuntime) -> Result<(), Fail> {
    assert_eq!(rt; kept(rt.alloc(), 0)?, (0, 0));
    assert_eq!(rt; kept(rt.alloc(), 1)?, (1, 0));
    assert_eq!(rt; kept(rt.alloc(), 2)?, (2, 1));
    assert_eq!(rt; kept(rt.alloc(), 1_048_575)?, (1_048_575, 1));
    assert_eq!(rt; kept(rt.alloc(), 1_048_576)?, (1_048_576, 1));
    assert_eq!(rt; kept(rt.alloc(), 1_048_577)?, (1_048_576, 1));
    assert_eq!(rt; DoubleArray::MAX_CELLS, 1_048_576);
    Ok(())
}

#[test]
fn paths_of_129_codes_at_most(rt: HostRuntime) -> Result<(), Fail> {
    let mut array = made(rt.alloc(), 300, 2)?;
    assert_eq!(rt; array.enter(&[2; 130], 1), Err(PathFault::Path));
    assert_eq!(rt; array.enter(&[2; 129], 1), Ok(()));
    assert_eq!(rt; array.number_at(&[2; 129]), Some(1));
    assert_eq!(rt; array.in_use(), 130);
    let mut out = [0; 130];
    assert_eq!(rt; array.path_of(1, &mut out), Ok(129));
    Ok(())
}

#[test]
fn refused_in_order(rt: HostRuntime) -> Result<(), Fail> {
    let mut array = made(rt.alloc(), 300, 2)?;
    assert_eq!(rt; array.enter(&[4, 5], 1), Ok(()));
    assert_eq!(rt; array.enter(&[], 0), Err(PathFault::Path));
    assert_eq!(rt; array.enter(&[2; 130], 2), Err(PathFault::Path));
    assert_eq!(rt; array.enter(&[4, 258], 2), Err(PathFault::Path));
    assert_eq!(rt; array.enter(&[0], 2), Err(PathFault::Path));
    assert_eq!(rt; array.enter(&[4], 0), Err(PathFault::Number));
    assert_eq!(rt; array.enter(&[4], 1), Err(PathFault::Number));
    assert_eq!(rt; array.enter(&[4], 2_147_483_648), Err(PathFault::Number));
    assert_eq!(rt; array.enter(&[4], 2), Err(PathFault::Blocked));
    assert_eq!(rt; array.enter(&[4, 5], 2), Err(PathFault::Blocked));
    assert_eq!(rt; array.enter(&[4, 5, 6], 2), Err(PathFault::Blocked));
    // A number past the index is entered and not indexed.
    assert_eq!(rt; array.enter(&[257, 1], 2_147_483_647), Ok(()));
    assert_eq!(rt; array.number_at(&[257, 1]), Some(2_147_483_647));
    let mut out = [0; 1];
    assert_eq!(rt; array.path_of(2, &mut out), Err(NumberFault::Unknown));
    assert_eq!(rt; array.path_of(1, &mut out), Err(NumberFault::Short));
    Ok(())
}

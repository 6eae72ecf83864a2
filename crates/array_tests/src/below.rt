// The words a, b and ab, each with the end sign, in 104 cells.
use cells::Cell;
use double_array::DoubleArray;
use std::alloc::{AllocError, Global};
use std::test::Fail;
use subtrie::numbers_below;

fn array(heap: Global, cells: usize) -> Result<DoubleArray, AllocError> {
    Ok(DoubleArray::new(vec![in heap; Cell::FREE; cells]?, vec![in heap; 0u32; 3]?))
}

#[test]
fn numbers_stand_in_the_order_of_their_paths(rt: HostRuntime) -> Result<(), Fail> {
    let mut words = array(rt.alloc(), 104)?;
    assert!(rt; words.enter(&[99, 1], 1).is_ok());
    assert!(rt; words.enter(&[100, 1], 2).is_ok());
    assert!(rt; words.enter(&[99, 100, 1], 3).is_ok());
    let mut out = [9u32; 4];
    assert_eq!(rt; numbers_below(&words, &[], &mut out), Some(3));
    assert!(rt; out == [1, 3, 2, 9]);
    let mut out = [9u32; 2];
    assert_eq!(rt; numbers_below(&words, &[99], &mut out), Some(2));
    assert!(rt; out == [1, 3]);
    assert_eq!(rt; numbers_below(&words, &[99, 100], &mut out), Some(1));
    assert!(rt; out == [3, 3]);
    assert_eq!(rt; numbers_below(&words, &[101], &mut out), Some(0));
    assert_eq!(rt; numbers_below(&words, &[], &mut out), None);
    assert!(rt; out == [3, 3]);
    Ok(())
}

#[test]
fn short_arrays_have_no_numbers(rt: HostRuntime) -> Result<(), Fail> {
    let none = array(rt.alloc(), 0)?;
    assert_eq!(rt; numbers_below(&none, &[], &mut []), Some(0));
    let one = array(rt.alloc(), 1)?;
    assert_eq!(rt; numbers_below(&one, &[], &mut []), Some(0));
    assert_eq!(rt; numbers_below(&one, &[99], &mut []), Some(0));
    Ok(())
}

// A plain list above a plain list.
use lexicon::{GrowingList, ListFault, ReadableList};
use overlay::Overlay;
use plain_list::PlainList;
use std::test::Fail;

#[test]
fn new_words_go_above(rt: HostRuntime) -> Result<(), Fail> {
    let heap = rt.alloc();
    let mut lower = PlainList::new(vec![in heap; 0u8; 20]?, vec![in heap; 0u8; 3]?);
    assert_eq!(rt; lower.enter(b"a"), Ok(1));
    assert_eq!(rt; lower.enter(b"bc"), Ok(2));
    let upper = PlainList::new(vec![in heap; 0u8; 20]?, vec![in heap; 0u8; 1]?);
    let mut list = Overlay::new(lower, upper).expect(&rt, "the upper list has no words");
    assert_eq!(rt; list.count(), 2);
    assert_eq!(rt; list.enter(b"bc"), Ok(2));
    assert_eq!(rt; list.enter(b"d"), Ok(3));
    assert_eq!(rt; list.enter(b"a"), Ok(1));
    assert_eq!(rt; list.enter(b"d"), Ok(3));
    assert_eq!(rt; list.enter(b"e"), Err(ListFault::NoRoom));
    assert_eq!(rt; list.find(b"d"), Ok(Some(3)));
    let mut out = [0u8; 4];
    assert_eq!(rt; list.spell(2, &mut out), Ok(2));
    assert_eq!(rt; list.spell(3, &mut out), Ok(1));
    assert_eq!(rt; list.spell(4, &mut out), Err(ListFault::UnknownWord));
    assert_eq!(rt; list.spell(0, &mut out), Err(ListFault::UnknownWord));
    Ok(())
}

#[test]
fn a_list_with_words_goes_above_none(rt: HostRuntime) -> Result<(), Fail> {
    let heap = rt.alloc();
    let lower = PlainList::new(vec![in heap; 0u8; 20]?, vec![in heap; 0u8; 3]?);
    let mut upper = PlainList::new(vec![in heap; 0u8; 20]?, vec![in heap; 0u8; 1]?);
    assert_eq!(rt; upper.enter(b"a"), Ok(1));
    assert!(rt; Overlay::new(lower, upper).is_none());
    Ok(())
}

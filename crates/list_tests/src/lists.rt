// The plain list on bad input and at its limits.
use lexicon::{GrowingList, ListFault, ReadableList};
use plain_list::PlainList;
use std::alloc::{AllocError, AllocGlobal, Global};
use std::process::Abort;
use std::test::Fail;

fn list(heap: Global, bytes: usize, lengths: usize) -> Result<PlainList, AllocError> {
    Ok(PlainList::new(vec![in heap; 200u8; bytes]?, vec![in heap; 77u8; lengths]?))
}

#[test]
fn empty_arrays_have_no_room(rt: HostRuntime) -> Result<(), Fail> {
    let mut none = list(rt.alloc(), 0, 0)?;
    assert_eq!(rt; none.enter(b"a"), Err(ListFault::NoRoom));
    assert_eq!(rt; none.enter(b""), Err(ListFault::WordLength));
    assert_eq!(rt; none.find(b"a"), Ok(None));
    assert_eq!(rt; none.count(), 0);
    let mut no_lengths = list(rt.alloc(), 10, 0)?;
    assert_eq!(rt; no_lengths.enter(b"a"), Err(ListFault::NoRoom));
    let mut no_bytes = list(rt.alloc(), 0, 10)?;
    assert_eq!(rt; no_bytes.enter(b"a"), Err(ListFault::NoRoom));
    Ok(())
}

#[test]
fn words_have_1_to_128_labels(rt: HostRuntime) -> Result<(), Fail> {
    let labels = [5u8; 129];
    let mut words = list(rt.alloc(), 300, 4)?;
    assert_eq!(rt; words.enter(&labels[0..0]), Err(ListFault::WordLength));
    assert_eq!(rt; words.enter(&labels[0..1]), Ok(1));
    assert_eq!(rt; words.enter(&labels[0..128]), Ok(2));
    assert_eq!(rt; words.enter(&labels), Err(ListFault::WordLength));
    assert_eq!(rt; words.find(&labels[0..0]), Err(ListFault::WordLength));
    assert_eq!(rt; words.find(&labels[0..128]), Ok(Some(2)));
    assert_eq!(rt; words.find(&labels[0..127]), Ok(None));
    assert_eq!(rt; words.find(&labels), Err(ListFault::WordLength));
    Ok(())
}

#[test]
fn a_full_list_keeps_what_it_has(rt: HostRuntime) -> Result<(), Fail> {
    let mut words = list(rt.alloc(), 7, 3)?;
    assert_eq!(rt; words.enter(b"ab"), Ok(1));
    assert_eq!(rt; words.enter(b"abc"), Ok(2));
    assert_eq!(rt; words.enter(b"xyz"), Err(ListFault::NoRoom));
    assert_eq!(rt; words.enter(b"yz"), Ok(3));
    assert_eq!(rt; words.enter(b"z"), Err(ListFault::NoRoom));
    assert_eq!(rt; words.enter(b"abc"), Ok(2));
    assert_eq!(rt; words.count(), 3);
    assert!(rt; words.bytes() == b"ababcyz".as_slice());
    assert!(rt; words.lengths() == [2u8, 3, 2].as_slice());
    Ok(())
}

#[test]
fn numbers_and_outputs_are_tested(rt: HostRuntime) -> Result<(), Fail> {
    let mut words = list(rt.alloc(), 20, 5)?;
    assert_eq!(rt; words.enter(b"rain"), Ok(1));
    assert_eq!(rt; words.enter(b"bow"), Ok(2));
    let mut out = [1u8; 6];
    assert_eq!(rt; words.spell(0, &mut out), Err(ListFault::UnknownWord));
    assert_eq!(rt; words.spell(3, &mut out), Err(ListFault::UnknownWord));
    assert_eq!(rt; words.spell(3, &mut out[0..0]), Err(ListFault::UnknownWord));
    assert_eq!(rt;
        words.spell(1, &mut out[0..3]),
        Err(ListFault::OutputTooShort)
    );
    assert!(rt; out == [1, 1, 1, 1, 1, 1]);
    assert_eq!(rt; words.spell(1, &mut out), Ok(4));
    assert!(rt; out == [114, 97, 105, 110, 1, 1]);
    assert_eq!(rt; words.spell(2, &mut out[0..3]), Ok(3));
    assert!(rt; out == [98, 111, 119, 110, 1, 1]);
    assert!(rt; words.bytes().starts_with(b"rainbow\xc8"));
    assert!(rt; words.lengths() == [4u8, 3, 77, 77, 77].as_slice());
    Ok(())
}

// A list over so many bytes and lengths keeps both arrays whole, and takes words.
fn keeps(rt: &(impl Abort + AllocGlobal), bytes: usize, lengths: usize) -> Result<(), AllocError> {
    let mut words = list(rt.alloc(), bytes, lengths)?;
    assert_eq!(rt; words.count(), 0);
    assert_eq!(rt; words.enter(b"rain"), Ok(1));
    assert_eq!(rt; words.enter(b"coat"), Ok(2));
    assert_eq!(rt; words.find(b"coat"), Ok(Some(2)));
    assert_eq!(rt; words.count(), 2);
    assert_eq!(rt; words.bytes().len(), bytes);
    assert!(rt; words.bytes().starts_with(b"raincoat\xc8"));
    assert!(rt; words.bytes().ends_with(b"\xc8"));
    assert_eq!(rt; words.lengths().len(), lengths);
    assert!(rt; words.lengths().starts_with(&[4, 4, 77]));
    assert!(rt; words.lengths().ends_with(&[77]));
    Ok(())
}

#[test]
fn arrays_of_their_limits_and_longer_stay_whole(rt: HostRuntime) -> Result<(), Fail> {
    let cases = [
        (8_388_607, 65_534),
        (8_388_608, 65_535),
        (8_388_609, 65_536),
        (8_388_700, 65_540),
    ];
    for (bytes, lengths) in cases {
        keeps(&rt, bytes, lengths)?;
    }
    Ok(())
}

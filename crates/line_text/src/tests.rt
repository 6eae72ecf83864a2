// Each text, and the limits of a listing and of an output.
use super::{LineAnswer, LineRow, LineRows, write_answer};
use refusal::{Refusal, Side};
use std::process::Abort;
use std::test::Fail;

// Just this is written, and the byte after it stays.
fn check_text(
    rt: &impl Abort,
    answer: &Result<LineAnswer, Refusal>,
    text: &[u8],
) -> Result<(), Fail> {
    let mut out = [b'#'; 4096];
    let Some(size) = write_answer(answer, &mut out) else {
        assert!(rt; false);
        return Ok(());
    };
    assert_eq!(rt; size, text.len());
    assert!(rt; out.starts_with(text));
    assert!(rt; out.get(size) == Some(&b'#'));
    Ok(())
}

#[test]
fn short_texts(rt: HostRuntime) -> Result<(), Fail> {
    check_text(&rt, &Ok(LineAnswer::Done), b"ok\n")?;
    check_text(&rt, &Ok(LineAnswer::Absent), b"none\n")?;
    check_text(&rt, &Ok(LineAnswer::Share(0)), b"0\n")?;
    check_text(&rt, &Ok(LineAnswer::Share(4_294_967_295)), b"4294967295\n")?;
    let found = LineAnswer::Found {
        x: 1,
        y: 65535,
        count: 120,
    };
    check_text(&rt, &Ok(found), b"1\t65535\t120\n")
}

#[test]
fn refusals(rt: HostRuntime) -> Result<(), Fail> {
    check_text(&rt, &Err(Refusal::MalformedLine), b"no\t12\t1\t0\n")?;
    check_text(
        &rt,
        &Err(Refusal::UnknownWord(Side::Second)),
        b"no\t4\t2\t2\n",
    )
}

#[test]
fn listings(rt: HostRuntime) -> Result<(), Fail> {
    let mut rows = LineRows::new();
    check_text(&rt, &Ok(LineAnswer::Listing(rows)), b"end\t0\n")?;
    let first = LineRow {
        relation: 7,
        y: 2,
        count: 120,
    };
    let second = LineRow {
        relation: 255,
        y: 65535,
        count: 4_294_967_295,
    };
    assert!(rt; rows.push(first).is_ok());
    assert!(rt; rows.push(second).is_ok());
    check_text(
        &rt,
        &Ok(LineAnswer::Listing(rows)),
        b"7\t2\t120\n255\t65535\t4294967295\nend\t2\n",
    )
}

#[test]
fn a_full_listing(rt: HostRuntime) {
    let row = LineRow {
        relation: 255,
        y: 65535,
        count: 4_294_967_295,
    };
    let mut rows = LineRows::new();
    for _ in 0..100 {
        assert!(rt; rows.push(row).is_ok());
    }
    assert!(rt; rows.push(row) == Err(row));
    let mut out = [b'#'; 4096];
    assert_eq!(rt;
        write_answer(&Ok(LineAnswer::Listing(rows)), &mut out),
        Some(2108)
    );
    assert_eq!(rt;
        &out[2079..2108],
        b"255\t65535\t4294967295\nend\t100\n".as_slice()
    );
}

#[test]
fn short_outputs(rt: HostRuntime) {
    let mut out = [b'#'; 4095];
    assert_eq!(rt; write_answer(&Ok(LineAnswer::Done), &mut out), None);
    assert_eq!(rt; &out[0..3], b"###".as_slice());
}

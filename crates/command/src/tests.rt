// Lines at their limits, and lines that are no command.
use super::{Command, parse};
use refusal::Refusal;
use script::WordTriple;
use std::process::Abort;

// A triple of words as a line has it.
fn words<'a>(x: &'a [u8], relation: u8, y: &'a [u8]) -> WordTriple<'a, u8> {
    WordTriple { x, relation, y }
}

// Each line is the command beside it.
fn check_asked(rt: &impl Abort, cases: &[(&[u8], Command<'_>)]) {
    for (line, command) in cases {
        assert_eq!(rt; parse(line), Ok(*command));
    }
}

// None of the lines is a command.
fn check_refused(rt: &impl Abort, lines: &[&[u8]]) {
    for line in lines {
        assert_eq!(rt; parse(line), Err(Refusal::MalformedLine));
    }
}

#[test]
fn each_letter(rt: HostRuntime) {
    let words = words(b"rain", 7, b"coat");
    let cases: [(&[u8], Command<'_>); 6] = [
        (b"A\train\tcoat\t7\t120", Command::Add { words, count: 120 }),
        (b"T\train\tcoat\t7\t120", Command::Tie { words, count: 120 }),
        (b"D\train\tcoat\t7", Command::Delete(words)),
        (b"F\train\tcoat\t7", Command::Find(words)),
        (b"S\train\tcoat\t7", Command::Share(words)),
        (
            b"L\train\t7",
            Command::List {
                x: b"rain",
                relation: 7,
            },
        ),
    ];
    check_asked(&rt, &cases);
}

#[test]
fn words_of_any_bytes(rt: HostRuntime) {
    let odd = words(b"\x00\r\xff", 0, b" ");
    let cases: [(&[u8], Command<'_>); 3] = [
        (b"F\t\x00\r\xff\t \t0", Command::Find(odd)),
        (b"F\t\t\t1", Command::Find(words(b"", 1, b""))),
        (
            b"L\t\t1",
            Command::List {
                x: b"",
                relation: 1,
            },
        ),
    ];
    check_asked(&rt, &cases);
}

#[test]
fn numbers_at_their_limits(rt: HostRuntime) {
    let (most, least) = (words(b"x", 255, b"y"), words(b"x", 0, b"y"));
    let count = 4_294_967_295;
    let cases: [(&[u8], Command<'_>); 2] = [
        (
            b"A\tx\ty\t255\t4294967295",
            Command::Add { words: most, count },
        ),
        (
            b"A\tx\ty\t0\t0",
            Command::Add {
                words: least,
                count: 0,
            },
        ),
    ];
    check_asked(&rt, &cases);
    let lines: [&[u8]; 10] = [
        b"A\tx\ty\t256\t1",
        b"A\tx\ty\t1\t4294967296",
        b"A\tx\ty\t1\t18446744073709551617",
        b"A\tx\ty\t01\t1",
        b"A\tx\ty\t1\t00",
        b"A\tx\ty\t\t1",
        b"A\tx\ty\t1\t",
        b"A\tx\ty\t+1\t1",
        b"A\tx\ty\t1\t1 ",
        b"A\tx\ty\t1\t1\r",
    ];
    check_refused(&rt, &lines);
}

#[test]
fn lines_that_are_no_command(rt: HostRuntime) {
    let lines: [&[u8]; 12] = [
        b"",
        b"A",
        b"A\t",
        b"L",
        b"\t",
        b"a\tx\ty\t1\t1",
        b"AA\tx\ty\t1\t1",
        b"A x\ty\t1\t1",
        b"A\tx\ty\t1",
        b"A\tx\ty\t1\t1\t1",
        b"D\tx\ty\t1\t1",
        b"L\tx",
    ];
    check_refused(&rt, &lines);
}

#[test]
fn lines_of_127_and_128_bytes(rt: HostRuntime) {
    let mut line = [b'x'; 127];
    line[0] = b'L';
    line[1] = b'\t';
    line[125] = b'\t';
    line[126] = b'1';
    let x = &line[2..125];
    assert_eq!(rt; parse(&line), Ok(Command::List { x, relation: 1 }));
    let mut long = [b'x'; 128];
    long[0] = b'L';
    long[1] = b'\t';
    long[126] = b'\t';
    long[127] = b'1';
    check_refused(&rt, &[&long]);
}

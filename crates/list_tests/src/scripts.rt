// Spellings, and the numbers of refusals.
use lexicon::ListFault;
use refusal::{Refusal, Side};
use script::{MorphemeClass, MorphemeSign, Script, SpellFault, spell_word};
use std::process::Abort;
use std::test::Fail;

// The word is spelled in these labels, and no others.
fn check_spelled<S: Script>(rt: &impl Abort, word: &[S], labels: &[u8]) {
    match spell_word(word) {
        Ok(spelled) => assert!(rt; spelled.as_slice() == labels),
        Err(_) => assert!(rt; false),
    }
}

#[test]
fn symbols_are_spelled(rt: HostRuntime) {
    check_spelled(&rt, b"ab", b"ab");
    check_spelled(&rt, &[258u16, 65535], &[1, 2, 255, 255]);
    let noun = MorphemeSign {
        class: MorphemeClass::Noun,
        form: 258,
    };
    check_spelled(&rt, &[noun], &[5, 1, 2]);
}

// The word has no symbol or too many.
fn check_refused(rt: &impl Abort, word: &[u16]) {
    match spell_word(word) {
        Ok(_) => assert!(rt; false),
        Err(fault) => assert!(rt; fault == SpellFault::WordLength),
    }
}

#[test]
fn words_have_1_to_32_symbols(rt: HostRuntime) {
    let symbols = [7u16; 33];
    check_refused(&rt, &symbols[0..0]);
    check_refused(&rt, &symbols);
    check_spelled(&rt, &symbols[0..1], &[0, 7]);
    let mut labels = [0u8; 64];
    for label in labels.iter_mut().skip(1).step_by(2) {
        *label = 7;
    }
    check_spelled(&rt, &symbols[0..32], &labels);
}

#[test]
fn refusals_are_reported(rt: HostRuntime) -> Result<(), Fail> {
    let cases = [
        (Refusal::WordLength(Side::First), "1 1 1"),
        (Refusal::RelationZero, "2 1 0"),
        (Refusal::RecordUnsound, "3 1 0"),
        (Refusal::UnknownWord(Side::Second), "4 2 2"),
        (Refusal::NoRoom(Side::Neither), "5 2 0"),
        (Refusal::TriplePresent, "6 3 0"),
        (Refusal::TripleAbsent, "7 3 0"),
        (Refusal::NoPlace, "8 3 0"),
        (Refusal::NumbersHeld, "9 3 0"),
        (Refusal::UnknownLink, "10 3 0"),
        (Refusal::OutputTooShort, "11 1 0"),
        (Refusal::MalformedLine, "12 1 0"),
    ];
    for (refusal, text) in cases {
        let shown = refusal.report().to_string(rt.alloc())?;
        assert!(rt; shown.as_str() == text);
    }
    assert_eq!(rt;
        Refusal::of_spelling(SpellFault::WordLength, Side::Second),
        Refusal::WordLength(Side::Second)
    );
    assert_eq!(rt;
        Refusal::of_list(ListFault::NoRoom, Side::First),
        Refusal::NoRoom(Side::First)
    );
    assert_eq!(rt;
        Refusal::of_list(ListFault::OutputTooShort, Side::First),
        Refusal::OutputTooShort
    );
    Ok(())
}

#[test]
fn refusals_are_said_in_words(rt: HostRuntime) -> Result<(), Fail> {
    let cases = [
        (
            Refusal::WordLength(Side::First),
            "the first word is too short or too long: hand in 1 to 32 symbols, or 1 to 128 labels",
        ),
        (
            Refusal::RelationZero,
            "the relation is 0: hand in one from 1 to 255",
        ),
        (
            Refusal::RecordUnsound,
            "the record is not sound: see which records its type lets through",
        ),
        (
            Refusal::UnknownWord(Side::Second),
            "the second word is not in the list: add it, or ask for another",
        ),
        (
            Refusal::NoRoom(Side::Neither),
            "the list has no room for the word: make a larger list",
        ),
        (
            Refusal::TriplePresent,
            "the triple is present already: change its record by its link number",
        ),
        (
            Refusal::TripleAbsent,
            "the triple is not present: add it first",
        ),
        (
            Refusal::NoPlace,
            "the link cells have no place for the triple: make a larger cell array",
        ),
        (
            Refusal::NumbersHeld,
            "all link numbers are held: delete a triple, or make a larger index and more records",
        ),
        (
            Refusal::UnknownLink,
            "no present triple has the link number: it was taken back, or never handed out",
        ),
        (
            Refusal::OutputTooShort,
            "the output is too short for the answer: lend a longer one",
        ),
        (
            Refusal::MalformedLine,
            "the line is no command: see the line format",
        ),
    ];
    for (refusal, text) in cases {
        let said = refusal.to_string(rt.alloc())?;
        assert!(rt; said.as_str() == text);
    }
    Ok(())
}

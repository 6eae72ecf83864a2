// Refusals: what a call says when it does not do what was asked.
//
// This crate knows the twelve refusals, each with its number, its layer and its side, and which fault
// of spelling, of a word list or of the link table leads to which of them. The layers below know their
// own faults alone, so that a further refusal changes nothing there. The rules stand in docs/REFUSALS.md.
#![tactic(auto)]

ghost use Rattle.std.specs.Prelude.{◌≡◌, Some};
ghost use Rattle.refusal.specs.declared.Side.TheVariants.{Neither};
ghost use Rattle.refusal.specs.Reports.{report_of, report_text, side_text, spell_refusal, list_refusal, link_refusal};

mod meanings;

use lexicon::ListFault;
use link_table::LinkFault;
pub use meanings::meaning;
use script::SpellFault;
use std::fmt;
use thiserror::Error;

// The layer that refuses.
#[derive(Clone, Copy, PartialEq, Eq, Debug)]
pub enum Layer {
    Call = 1,
    List = 2,
    Table = 3,
}

// Which word of a relation is meant: neither, the first (X) or the second (Y).
#[derive(Clone, Copy, PartialEq, Eq, Debug)]
pub enum Side {
    Neither = 0,
    First = 1,
    Second = 2,
}

// A side in words, as the text of a refusal names it.
impl fmt::Display for Side {
    ghost output = { λ side. Some (side_text side) };

    fn fmt<W: fmt::Write>(&self, f: &mut fmt::Formatter<W>) -> fmt::Result {
        match self {
            Side::Neither => write!(f, "the word"),
            Side::First => write!(f, "the first word"),
            Side::Second => write!(f, "the second word"),
        }
    }
}

// Every reason for which a call of the store, of a list or of a line is refused.
#[derive(Clone, Copy, PartialEq, Eq, Debug, Error)]
pub enum Refusal {
    // A word has no symbol or more than 32, or a spelling has no label or more than 128.
    #[error("{0} is too short or too long: hand in 1 to 32 symbols, or 1 to 128 labels")]
    WordLength(Side),
    // The relation is 0.
    #[error("the relation is 0: hand in one from 1 to 255")]
    RelationZero,
    // The record is not sound.
    #[error("the record is not sound: see which records its type lets through")]
    RecordUnsound,
    // The word, or the word number, is not in the list.
    #[error("{0} is not in the list: add it, or ask for another")]
    UnknownWord(Side),
    // The list has no room for the new word.
    #[error("the list has no room for {0}: make a larger list")]
    NoRoom(Side),
    // The triple is present already.
    #[error("the triple is present already: change its record by its link number")]
    TriplePresent,
    // The triple is not present.
    #[error("the triple is not present: add it first")]
    TripleAbsent,
    // The cells have no place for the triple's code.
    #[error("the link cells have no place for the triple: make a larger cell array")]
    NoPlace,
    // All link numbers are held.
    #[error("all link numbers are held: delete a triple, or make a larger index and more records")]
    NumbersHeld,
    // No present triple has the link number.
    #[error("no present triple has the link number: it was taken back, or never handed out")]
    UnknownLink,
    // The output is too short for the answer.
    #[error("the output is too short for the answer: lend a longer one")]
    OutputTooShort,
    // The line is no command.
    #[error("the line is no command: see the line format")]
    MalformedLine,
}

// A refusal as it is reported to the caller and printed.
#[derive(Clone, Copy, PartialEq, Eq, Debug)]
pub struct Report {
    pub number: u8,
    pub layer: Layer,
    pub side: Side,
}

impl Refusal {
    // The number, the layer and the side of the refusal.
    pub fn report(self) -> Report
        ensures { result ≡ report_of self }
    {
        let (number, layer, side) = match self {
            Refusal::WordLength(side) => (1, Layer::Call, side),
            Refusal::RelationZero => (2, Layer::Call, Side::Neither),
            Refusal::RecordUnsound => (3, Layer::Call, Side::Neither),
            Refusal::UnknownWord(side) => (4, Layer::List, side),
            Refusal::NoRoom(side) => (5, Layer::List, side),
            Refusal::TriplePresent => (6, Layer::Table, Side::Neither),
            Refusal::TripleAbsent => (7, Layer::Table, Side::Neither),
            Refusal::NoPlace => (8, Layer::Table, Side::Neither),
            Refusal::NumbersHeld => (9, Layer::Table, Side::Neither),
            Refusal::UnknownLink => (10, Layer::Table, Side::Neither),
            Refusal::OutputTooShort => (11, Layer::Call, Side::Neither),
            Refusal::MalformedLine => (12, Layer::Call, Side::Neither),
        };
        Report {
            number,
            layer,
            side,
        }
    }

    // The refusal of a call whose word on that side cannot be spelled.
    pub fn of_spelling(fault: SpellFault, side: Side) -> Refusal
        ensures { result ≡ spell_refusal fault side }
    {
        match fault {
            SpellFault::WordLength => Refusal::WordLength(side),
        }
    }

    // The refusal of a call whose word on that side the list refuses.
    pub fn of_list(fault: ListFault, side: Side) -> Refusal
        ensures { result ≡ list_refusal fault side }
    {
        match fault {
            ListFault::WordLength => Refusal::WordLength(side),
            ListFault::UnknownWord => Refusal::UnknownWord(side),
            ListFault::NoRoom => Refusal::NoRoom(side),
            ListFault::OutputTooShort => Refusal::OutputTooShort,
        }
    }
}

// Where no side is meant, `?` makes the refusal.
impl From<SpellFault> for Refusal {
    ghost from_gives = { λ e r. r ≡ spell_refusal e Neither };

    fn from(spell_fault: SpellFault) -> Refusal {
        Refusal::of_spelling(spell_fault, Side::Neither)
    }
}

impl From<ListFault> for Refusal {
    ghost from_gives = { λ e r. r ≡ list_refusal e Neither };

    fn from(list_fault: ListFault) -> Refusal {
        Refusal::of_list(list_fault, Side::Neither)
    }
}

impl From<LinkFault> for Refusal {
    ghost from_gives = { λ e r. r ≡ link_refusal e };

    fn from(link_fault: LinkFault) -> Refusal {
        match link_fault {
            LinkFault::TriplePresent => Refusal::TriplePresent,
            LinkFault::TripleAbsent => Refusal::TripleAbsent,
            LinkFault::NoPlace => Refusal::NoPlace,
            LinkFault::NumbersHeld => Refusal::NumbersHeld,
        }
    }
}

// A report is printed as its number, its layer and its side, with one space between.
impl fmt::Display for Report {
    ghost output = { λ r. Some (report_text r) };

    fn fmt<W: fmt::Write>(&self, f: &mut fmt::Formatter<W>) -> fmt::Result {
        let number = self.number;
        let layer = self.layer as u8;
        let side = self.side as u8;
        write!(f, "{number} {layer} {side}")
    }
}

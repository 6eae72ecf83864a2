// A list with words of its own above another list, whatever either is built of.
//
// The lower list's words come first and are only read; new words go into the upper list. This crate
// knows both by their interfaces alone. It is the example of a list that holds another: what its parts
// keep true of their rolls is told by their calls, and what both together keep true by its `Model`.
// The rules stand in docs/WORD_LISTS.md, "A list above another".
#![tactic(auto)]

ghost use Rattle.std.specs.Prelude.{◌≡◌, ℕ, ◌+◌, ◌≤◌, ◌++◌, List, [], cond, length, Some, None, ◌&&◌, ◌==◌, nat_lt};
ghost use Rattle.lexicon.specs.Rolls.{Lawful};
ghost use Rattle.overlay.specs.Over.{RollOver, RoomOver, EntersOver};

use lexicon::{GrowingList, ListFault, MAX_WORDS, ReadableList};
use std::marker::Model;

// A list above another: the words of the lower list, and then those of the upper.
#[derive(Drop)]
pub struct Overlay<L: ReadableList, U: GrowingList> {
    lower: L,
    upper: U,
}

impl<L: ReadableList, U: GrowingList> Model for Overlay<L, U> {
    ghost use Rattle.std.specs.Prelude.{◌++◌};
    ghost use Rattle.lexicon.specs.Rolls.{Lawful};

    ghost Value = { L × U };

    ghost view = { λ s. (s.lower, s.upper) };

    // The words of both lists together are a lawful roll.
    ghost invariant = { λ s. Lawful (L.ReadableList.roll s.lower ++ U.ReadableList.roll s.upper) };
}

impl<L: ReadableList + Drop, U: GrowingList + Drop> Overlay<L, U> {
    // A list above another that has no word of its own yet: none where the upper list has words.
    pub fn new(lower: L, upper: U) -> Option<Overlay<L, U>>
        ensures { result ≡ cond (length (U.ReadableList.roll upper) == 0) (Some (lower, upper)) None }
    {
        // The lower list is asked too, since what holds of its roll is known from a call.
        let _ = lower.count();
        if upper.count() != 0 {
            return None;
        }
        Some(Overlay { lower, upper })
    }
}

impl<L: ReadableList, U: GrowingList> ReadableList for Overlay<L, U> {
    ghost roll = { λ v. L.ReadableList.roll v.0 ++ U.ReadableList.roll v.1 };

    fn count(&self) -> u16 {
        self.lower.count() + self.upper.count()
    }

    fn find(&self, word: &[u8]) -> Result<Option<u16>, ListFault> {
        if let Some(number) = self.lower.find(word)? {
            return Ok(Some(number));
        }
        if let Some(number) = self.upper.find(word)? {
            return Ok(Some(self.lower.count() + number));
        }
        Ok(None)
    }

    fn spell(&self, number: u16, out: &mut [u8]) -> Result<usize, ListFault> {
        let lower = self.lower.count();
        if number <= lower {
            self.lower.spell(number, out)
        } else {
            self.upper.spell(number - lower, out)
        }
    }
}

impl<L: ReadableList, U: GrowingList> GrowingList for Overlay<L, U> {
    // A number is left, and the upper list has room.
    ghost room = { λ v w. nat_lt (length (L.ReadableList.roll v.0) + length (U.ReadableList.roll v.1)) 65535
        && U.GrowingList.room v.1 w };

    // The upper list holds what it holds after an entry of its own, and the lower list stays.
    ghost enters = { λ s w t. U.GrowingList.enters s.1 w t.1 × (t.0 ≡ s.0) };

    fn enter(&mut self, word: &[u8]) -> Result<u16, ListFault> {
        if let Some(number) = self.find(word)? {
            return Ok(number);
        }
        let lower = self.lower.count();
        if (lower + self.upper.count()) as usize == MAX_WORDS {
            return Err(ListFault::NoRoom);
        }
        let number = self.upper.enter(word)?;
        Ok(lower + number)
    }
}

// What the list means to the two interfaces: the words of both lists, room where a number is left and the upper
// list has room, and an entry into the upper list that leaves the lower as it is.
pub fn meaning<L: ReadableList, U: GrowingList>()
    ensures roll { RollOver L.ReadableList.roll U.ReadableList.roll ⟦<Overlay<L, U> as ReadableList>⟧.roll }
    ensures room { RoomOver L.ReadableList.roll U.ReadableList.roll U.GrowingList.room
        ⟦<Overlay<L, U> as GrowingList>⟧.room }
    ensures enters { EntersOver U.GrowingList.enters ⟦<Overlay<L, U> as GrowingList>⟧.enters }
{}

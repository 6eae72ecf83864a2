// The calls of a plain list.
ghost use Rattle.std.specs.Prelude.{◌≡◌, ◌<◌, true, [], ◌∷◌, ◌++◌, slice_index_or};
ghost use Rattle.lexicon.specs.Rolls.{number_of};
ghost use Rattle.lexicon.specs.Answers.{is_new};
ghost use Rattle.plain_list.specs.Plain.{roll_of, room_of, IsNewPlainList, Appended};

use super::list::PlainList;
use super::search;
use lexicon::{GrowingList, ListFault, MAX_WORDS, ReadableList, has_label_size, is_numbered};

// A word of 128 labels for each number from 0 to 65,535.
const MAX_BYTES: usize = 8_388_608;

impl PlainList {
    // A list of no word over the two arrays. They may hold anything and stay as they are.
    pub fn new(bytes: Vec<u8>, lengths: Vec<u8>) -> PlainList
        ensures { IsNewPlainList bytes lengths result }
    {
        PlainList {
            bytes,
            lengths,
            count: 0,
            used: 0,
        }
    }

    // The bytes, to look at: the spellings of the words end to end, and then what was there before.
    pub fn bytes(&self) -> &[u8]
        ensures { result.now ≡ self.now.bytes.items }
    {
        &self.bytes
    }

    // The lengths, to look at: those of the words, and then what was there before.
    pub fn lengths(&self) -> &[u8]
        ensures { result.now ≡ self.now.lengths.items }
    {
        &self.lengths
    }

    // The number of the word, or none.
    fn number_of(&self, word: &[u8]) -> Option<u16>
        ensures { result ≡ number_of (roll_of self.now) word.now }
    {
        let lengths = &self.lengths.as_slice()[0..self.count];
        search::number_in(lengths, self.bytes.as_slice(), word).map(|number| number as u16)
    }

    // The word at the index.
    fn word_at(&self, index: usize) -> &[u8]
        requires { index < self.now.count }
        ensures { result.now ≡ slice_index_or (roll_of self.now) index [] }
    {
        let lengths = self.lengths.as_slice();
        let start = search::bytes_of(&lengths[0..index]);
        let end = start + lengths[index] as usize;
        let bytes = self.bytes.as_slice();
        &bytes[start..end]
    }

    // A number is left, and bytes for the word.
    #[tactic(auto, using(crate::proofs::Lists::room_is))]
    fn has_room(&self, word: &[u8]) -> bool
        ensures { result ≡ room_of self.now word.now }
    {
        let words = self.lengths.len().min(MAX_WORDS);
        let bytes = self.bytes.len().min(MAX_BYTES);
        self.count < words && word.len() <= bytes - self.used
    }

    // Writes a new word after the last.
    fn append(&mut self, word: &[u8])
        requires { is_new (roll_of self.old) (room_of self.old word.now) word.now ≡ true }
        ensures arrays { Appended self.old word.now self.new }
        ensures roll { roll_of self.new ≡ roll_of self.old ++ word.now ∷ [] }
    {
        let at = self.used;
        let index = self.count;
        let _ = output::write_at(self.bytes.as_mut_slice(), at, word);
        self.lengths[index] = word.len() as u8;
        self.count = index + 1;
        self.used = at + word.len();
    }
}

impl ReadableList for PlainList {
    ghost roll = { roll_of };

    fn count(&self) -> u16 {
        self.count as u16
    }

    // As the trie list's: one text would need the search as a public method that asks for a sized word.
    fn find(&self, word: &[u8]) -> Result<Option<u16>, ListFault> {
        if !has_label_size(word) {
            return Err(ListFault::WordLength);
        }
        Ok(self.number_of(word))
    }

    fn spell(&self, number: u16, out: &mut [u8]) -> Result<usize, ListFault> {
        if !is_numbered(self.count, number) {
            return Err(ListFault::UnknownWord);
        }
        let word = self.word_at(number as usize - 1);
        output::write_at(out, 0, word).ok_or(ListFault::OutputTooShort)
    }
}

impl GrowingList for PlainList {
    ghost room = { room_of };

    ghost enters = { Appended };

    #[tactic(auto, using(crate::proofs::Lists::entered, crate::proofs::Lists::roll_lawful))]
    fn enter(&mut self, word: &[u8]) -> Result<u16, ListFault> {
        if !has_label_size(word) {
            return Err(ListFault::WordLength);
        }
        if let Some(number) = self.number_of(word) {
            return Ok(number);
        }
        if !self.has_room(word) {
            return Err(ListFault::NoRoom);
        }
        self.append(word);
        Ok(self.count as u16)
    }
}

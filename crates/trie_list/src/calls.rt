// The calls of a trie list.
ghost use Rattle.std.specs.Prelude.{◌≡◌, ◌≤◌, true, length, IfOk, None, vec_len, OnOk};
ghost use Rattle.lexicon.specs.Rolls.{label_sized, number_of, numbered, word_of};
ghost use Rattle.output.specs.Written.{Filled};
ghost use Rattle.double_array.specs.Views.{cells_of, index_of};
ghost use Rattle.trie_list.specs.Below.{below_of, below_answer, below_output, WordsBelow};
ghost use Rattle.trie_list.specs.Trie.{roll_of, room_of, IsNewTrieList, Walked, ArraysEntered, Appends};

use super::faults::list_fault;
use super::list::TrieList;
use super::spelling::{codes_of, path_of_word, write_labels};
use cells::Cell;
use double_array::DoubleArray;
use lexicon::{GrowingList, ListFault, MAX_WORDS, ReadableList, has_label_size, is_numbered};
use subtrie::numbers_below;

impl TrieList {
    // A list of no word over a cell array and an index array, which may hold anything: every cell
    // becomes free but the root, and every index entry 0. Of more than 1,048,576 cells and of more
    // than 65,535 index entries the rest is given up.
    pub fn new(cells: Vec<Cell>, mut index: Vec<u32>) -> TrieList
        ensures { IsNewTrieList (vec_len cells) (vec_len index) result }
    {
        index.truncate(MAX_WORDS);
        TrieList {
            array: DoubleArray::new(cells, index),
            count: 0,
        }
    }

    // The cells, to look at. Walking them finds each word of the roll with its number, and nothing else.
    pub fn cells(&self) -> &[Cell]
        ensures cells { result.now ≡ cells_of self.now.array }
        ensures walked { Walked self.now }
    {
        self.array.cells()
    }

    // The double array, to look at: the paths of the words, each with its number.
    pub fn array(&self) -> &DoubleArray
        ensures { result.now ≡ self.now.array }
    {
        &self.array
    }

    // The index, to look at: the leaf of each number, and 0 for a number without one.
    pub fn index(&self) -> &[u32]
        ensures { result.now ≡ index_of self.now.array }
    {
        self.array.index()
    }

    // Writes the numbers of the words that begin so into the output, from its start, in the order of
    // their spellings, and answers how many there are. A beginning of more than 128 labels is refused,
    // then an output that is too short; nothing is written then.
    pub fn words_below(&self, beginning: &[u8], out: &mut [u32]) -> Result<usize, ListFault>
        ensures answer { result ≡ below_answer self.now beginning.now out.old }
        ensures output { out.new ≡ below_output self.now beginning.now out.old }
        ensures within { IfOk result (λ n. n ≤ length out.old) }
        ensures words { OnOk result (WordsBelow (roll_of self.now) beginning.now (below_of self.now beginning.now)) }
    {
        if beginning.len() > 128 {
            return Err(ListFault::WordLength);
        }
        let codes = codes_of(beginning);
        numbers_below(&self.array, codes.as_slice(), out).ok_or(ListFault::OutputTooShort)
    }

    // The number of the word, or none.
    #[inline]
    fn number_of(&self, word: &[u8]) -> Option<u16>
        requires { length word.now ≤ 128 }
        ensures { result ≡ number_of (roll_of self.now) word.now }
    {
        let path = path_of_word(word);
        self.array
            .number_at(path.as_slice())
            .map(|number| number as u16)
    }

    // Writes the word of a number from the start of the output and answers how many labels it has, or
    // writes nothing and answers none where the output is too short.
    fn write_word(&self, number: u16, out: &mut [u8]) -> Option<usize>
        requires { numbered (roll_of self.now) number ≡ true }
        ensures { Filled (word_of (roll_of self.now) number) out.old result out.new }
    {
        // A path is written into an output that is lent: a rule of the project.
        let mut path = [0u16; 129];
        let Ok(size) = self.array.path_of(number as u32, &mut path) else {
            return None;
        };
        write_labels(&path[0..size], out)
    }

    // Enters a word that the list lacks with the next number, and answers that number.
    fn append(&mut self, word: &[u8]) -> Result<u16, ListFault>
        requires sized { label_sized word.now ≡ true }
        requires absent { number_of (roll_of self.old) word.now ≡ None }
        ensures { Appends self.old word.now result self.new }
    {
        if self.count >= self.index().len() {
            return Err(ListFault::NoRoom);
        }
        let path = path_of_word(word);
        let number = self.count + 1;
        self.array
            .enter(path.as_slice(), number as u32)
            .map_err(list_fault)?;
        self.count = number;
        Ok(number as u16)
    }
}

impl ReadableList for TrieList {
    ghost roll = { roll_of };

    fn count(&self) -> u16 {
        self.count as u16
    }

    // As the plain list's: one text would need the search as a public method that asks for a sized word.
    fn find(&self, word: &[u8]) -> Result<Option<u16>, ListFault> {
        if !has_label_size(word) {
            return Err(ListFault::WordLength);
        }
        Ok(self.number_of(word))
    }

    fn spell(&self, number: u16, out: &mut [u8]) -> Result<usize, ListFault> {
        if !is_numbered(self.count, number) {
            return Err(ListFault::UnknownWord);
        }
        self.write_word(number, out)
            .ok_or(ListFault::OutputTooShort)
    }
}

impl GrowingList for TrieList {
    ghost room = { room_of };

    ghost enters = { ArraysEntered };

    #[tactic(auto, using(crate::proofs::Lists::told, crate::proofs::Lists::roll_lawful))]
    fn enter(&mut self, word: &[u8]) -> Result<u16, ListFault> {
        if !has_label_size(word) {
            return Err(ListFault::WordLength);
        }
        if let Some(number) = self.number_of(word) {
            return Ok(number);
        }
        self.append(word)
    }
}

// The path of a word, and the labels of a path.
ghost use Rattle.std.specs.Prelude.{◌≡◌, ◌≤◌, true, length};
ghost use Rattle.cells.specs.Cells.{all_codes, path_of_labels};
ghost use Rattle.output.specs.Written.{Filled};
ghost use Rattle.trie_list.specs.Paths.{path_of_word, labels_on, word_path};

use arrayvec::ArrayVec;
use double_array::label_code;

// The codes of labels.
#[inline]
pub(super) fn codes_of(labels: &[u8]) -> ArrayVec<u16, 129>
    requires { length labels.now ≤ 128 }
    ensures { result.items ≡ path_of_labels labels.now }
{
    let mut codes = ArrayVec::new();
    for label in labels {
        codes.push(label_code(*label));
    }
    codes
}

// The path of a word: the codes of its labels, and the end sign.
#[inline]
pub(super) fn path_of_word(word: &[u8]) -> ArrayVec<u16, 129>
    requires { length word.now ≤ 128 }
    ensures { result.items ≡ path_of_word word.now }
{
    let mut path = codes_of(word);
    path.push(1);
    path
}

// Writes the labels of a word's path from the start of the output and answers how many there are, or
// writes nothing and answers none where the output is too short. The last code is the end sign.
pub(super) fn write_labels(path: &[u16], out: &mut [u8]) -> Option<usize>
    requires word { word_path path.now ≡ true }
    requires codes { all_codes path.now ≡ true }
    ensures { Filled (labels_on path.now) out.old result out.new }
{
    let size = path.len() - 1;
    if out.len() < size {
        return None;
    }
    // Straight into the output: a vector of labels, pushed to and handed on, takes four times the time.
    // By index: of what is written through `iter_mut().zip(path)` a proof knows nothing afterwards.
    for (i, place) in out[0..size].iter_mut().enumerate() {
        *place = (path[i] - 2) as u8;
    }
    Some(size)
}

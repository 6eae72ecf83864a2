// Words that lie end to end: finding one, and where one starts.
ghost use Rattle.std.specs.Prelude.{◌≡◌, ◌^◌, ◌<◌, ◌≤◌, length, sum};
ghost use Rattle.lexicon.specs.Rolls.{number_of};
ghost use Rattle.plain_list.specs.Cuts.{cut};

// The number of the word among the words of these lengths, or none. One pass over the lengths, by index,
// with the sum of those passed, which is where the next word starts: a rule of the project.
pub(super) fn number_in(lengths: &[u8], bytes: &[u8], word: &[u8]) -> Option<usize>
    requires { sum lengths.now ≤ length bytes.now }
    ensures { result ≡ number_of (cut lengths.now bytes.now) word.now }
{
    let mut at = 0usize;
    for (i, len) in lengths.iter().enumerate() {
        let end = at + *len as usize;
        if &bytes[at..end] == word {
            return Some(i + 1);
        }
        at = end;
    }
    None
}

// How many bytes words of these lengths take together: where the next word starts.
pub(super) fn bytes_of(lengths: &[u8]) -> usize
    requires { sum lengths.now < 2 ^ 64 }
    ensures { result ≡ sum lengths.now }
{
    lengths.iter().map(|len| *len as usize).sum()
}

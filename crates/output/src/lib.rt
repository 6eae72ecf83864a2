// Outputs: a slice that is lent, into which a run of elements is written; the rest stays.
//
// This crate knows slices and places in them, and nothing of what is written.
// The rule stands in docs/WORD_LISTS.md, "Outputs".
#![tactic(auto)]

ghost use Rattle.std.specs.Prelude.{◌≡◌, ◌+◌, length, if◌then◌else◌, Some, None};
ghost use Rattle.output.specs.Written.{fits, written};

// Writes the items from the place `at` on and answers where they end, or none where the output is
// too short for them; then nothing is written.
pub fn write_at<T: Copy>(out: &mut [T], at: usize, items: &[T]) -> Option<usize>
    ensures end { result ≡ (if fits out.old at items.now then Some (at + length items.now) else None) }
    ensures after { out.new ≡ (if fits out.old at items.now then written out.old at items.now else out.old) }
{
    if at > out.len() || items.len() > out.len() - at {
        return None;
    }
    let end = at + items.len();
    out[at..end].copy_from_slice(items);
    Some(end)
}

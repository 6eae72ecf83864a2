// Numbers without a leaf.
ghost use Rattle.std.specs.Prelude.{◌<◌};
ghost use Rattle.link_table.specs.Numbers.{Vacant};

// The first of the entries that is 0.
fn first_zero(entries: &[u32]) -> Option<usize>
    ensures { Vacant entries.now 0 result }
{
    entries.iter().position(|entry| *entry == 0)
}

// The first place from `from` on whose index entry is 0.
pub(super) fn vacant_from(index: &[u32], from: usize) -> Option<usize>
    ensures { Vacant index.now from result }
{
    let entries = index.get(from..)?;
    let place = first_zero(entries)?;
    Some(from + place)
}

// A place whose index entry is 0, if there is one: the first from the cursor on, or else the first of all.
pub(super) fn vacant(index: &[u32], cursor: usize) -> Option<usize>
    ensures { Vacant index.now 0 result }
{
    vacant_from(index, cursor).or_else(|| vacant_from(index, 0))
}

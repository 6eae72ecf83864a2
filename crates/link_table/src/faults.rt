// What the link table refuses.
ghost use Rattle.std.specs.Prelude.{◌≡◌};
ghost use Rattle.link_table.specs.Faults.{link_fault_of};

use double_array::PathFault;

// A call of the link table.
#[derive(Clone, Copy, PartialEq, Eq, Debug)]
pub enum LinkFault {
    // The triple is present already.
    TriplePresent,
    // The triple is not present.
    TripleAbsent,
    // The cells have no place for the triple's code: make a larger cell array.
    NoPlace,
    // All link numbers are held: delete a triple, or make a larger index and more records.
    NumbersHeld,
}

// A triple whose path is refused. Every code of a triple is a path, a table hands out free numbers only,
// and no code runs through the end of another, so of a table only the place is ever refused.
impl From<PathFault> for LinkFault {
    ghost from_gives = { λ e r. r ≡ link_fault_of e };

    fn from(path_fault: PathFault) -> LinkFault {
        match path_fault {
            PathFault::Path => LinkFault::NoPlace,
            PathFault::Number => LinkFault::NumbersHeld,
            PathFault::Blocked => LinkFault::TriplePresent,
            PathFault::NoPlace => LinkFault::NoPlace,
        }
    }
}

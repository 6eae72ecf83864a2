// What a refused path means to the library's interfaces.
ghost use Rattle.std.specs.Prelude.{◌≡◌, ◌↔◌};
ghost use Rattle.link_table.specs.Faults.{link_fault_of};

use super::faults::LinkFault;
use double_array::PathFault;

// A refused path becomes, by `From`, the fault of docs/LINKS.md.
pub fn meaning()
    ensures { (path link : _) → ⟦<LinkFault as From<PathFault>>⟧.from_gives path link ↔ (link ≡ link_fault_of path) }
{}

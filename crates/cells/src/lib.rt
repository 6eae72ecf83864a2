// Cells: the double array as a list of cells, its rules and what they come to.
//
// This crate knows cells, codes 1 to 257, paths, leaf numbers and the leaf index. It knows nothing
// of words or triples, and it has no code that works on cells: specs/ defines the rules, which
// docs/CELLS.md tells, and the contracts below are the theorems about them.
#![tactic(auto)]

ghost use Rattle.cells.specs.Laws.{Starting, Unused, Walking, Climbing, Indexing};
ghost use Rattle.cells.specs.Laws.{Holding, Counting, Beginning, Using, ShortArrays};
ghost use Rattle.cells.specs.Laws.{Searching, Relocating, Entering, Moving, Undoing, TakingBack, Taking};
ghost use Rattle.cells.specs.Examples.{Examples};

// A cell: BASE and CHECK.
#[derive(Clone, Copy, PartialEq, Eq, Debug)]
pub struct Cell {
    pub base: i32,
    pub check: i32,
}

impl Cell {
    // A free cell.
    pub const FREE: Cell = Cell { base: 0, check: 0 };
    // The root while it has no children.
    pub const ROOT: Cell = Cell { base: 1, check: 1 };
}

// What an array says: a new one is sound and holds no path; cell 0 is never used; walking finds
// exactly the paths held; climbing from a cell spells its path; the index leads each number to its
// leaf; climbing from the leaves spells exactly the held paths; the cells in use are, in an array of
// two cells or more, one more than the different non-empty beginnings of the held paths, and what is
// counted are just these; a cell is either in use or free; and fewer than two cells hold no path, have
// no place for any, and none of them is in use.
pub fn reading_laws()
    ensures starting { Starting }
    ensures unused { Unused }
    ensures walking { Walking }
    ensures climbing { Climbing }
    ensures indexing { Indexing }
    ensures holding { Holding }
    ensures counting { Counting }
    ensures beginning { Beginning }
    ensures using { Using }
    ensures short { ShortArrays }
{}

// What a change does: the search finds the lowest base; when a family moves, nothing held changes;
// an entered path is held in addition; at most one family moves on the way; what grew is undone
// exactly, so the newest path can be taken back; a path that is taken out is gone; and every other
// path stays as it was.
pub fn changing_laws()
    ensures searching { Searching }
    ensures relocating { Relocating }
    ensures entering { Entering }
    ensures moving { Moving }
    ensures undoing { Undoing }
    ensures taking_back { TakingBack }
    ensures taking { Taking }
{}

// The rules, worked out on small arrays.
pub fn worked_examples()
    ensures { Examples }
{}

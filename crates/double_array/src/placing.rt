// Giving a node a child: the lowest base with room, and the family that moves there.
ghost use Rattle.std.specs.Prelude.{◌≡◌, ℕ, ◌+◌, ◌^◌, ◌<◌, length, IfSome};
ghost use Rattle.cells.specs.Cells.{at, base_of};
ghost use Rattle.cells.specs.Placing.{lowest, repointed, moved_list, reindexed, moves, index_moves, relocated, index_relocated};
ghost use Rattle.double_array.specs.Buffers.{SameBuffers};
ghost use Rattle.double_array.specs.Outcomes.{Given, CodesWithin};

use super::nodes::Nodes;
use super::paths::leaf_number;
use cells::Cell;

// Gives each child of `from`, whose base is `base`, the parent `to`.
fn repoint(cells: &mut [Cell], base: usize, from: usize, to: usize)
    requires from { from < 2 ^ 31 }
    requires to { to < 2 ^ 31 }
    requires base { base < 2 ^ 31 }
    ensures { (j : ℕ) → j < length cells.old → at cells.new j ≡ repointed cells.old base from to 258 j }
{
    let end = cells.len().min(base + 258);
    let start = end.min(base + 1);
    for cell in cells[start..end].iter_mut() {
        if cell.check == from as i32 {
            cell.check = to as i32;
        }
    }
}

impl Nodes {
    // The lowest base from 1 up at which each of the codes has a free cell. The search is over bases and, at each, over
    // codes, and a base is left at its first code with a taken cell: a rule of the project.
    fn lowest_base(&self, codes: &[u16]) -> Option<usize>
        requires { 0 < length codes.now }
        ensures { result ≡ lowest self.now.cells.items codes.now }
    {
        'bases: for base in 1..self.cells.len() {
            for code in codes {
                let t = base + *code as usize;
                if !self.is_free(t) {
                    continue 'bases;
                }
            }
            return Some(base);
        }
        None
    }

    // Notes in the index that the leaf with this base stands in the cell `to`. A number past the index is not noted.
    pub(super) fn note_leaf(&mut self, base: i32, to: usize)
        requires within { to < length self.old.cells.items }
        ensures leaves { self.new.index.items ≡ reindexed self.old.index.items base to }
        ensures cells { self.new.cells ≡ self.old.cells }
        ensures kept { SameBuffers self.old self.new }
    {
        if let Some(number) = leaf_number(base)
            && let Some(entry) = self.index.get_mut(number as usize - 1)
        {
            *entry = to as u32;
        }
    }

    // Moves the node in the cell `from` to the cell `to`; its children, or its leaf's entry in the index, follow.
    fn move_child(&mut self, from: usize, to: usize)
        requires from_within { from < length self.old.cells.items }
        requires to_within { to < length self.old.cells.items }
        ensures cells { self.new.cells.items ≡ moved_list self.old.cells.items from to }
        ensures leaves { self.new.index.items ≡ reindexed self.old.index.items (at self.old.cells.items from).base to }
        ensures kept { SameBuffers self.old self.new }
    {
        let cells = self.cells.as_mut_slice();
        let cell = cells[from];
        if cell.base > 0 {
            repoint(cells, cell.base as usize, from, to);
        }
        cells[to] = cell;
        cells[from] = Cell::FREE;
        self.note_leaf(cell.base, to);
    }

    // Moves the children by these codes from the base `old` to the base `new`.
    fn relocate(&mut self, codes: &[u16], old: usize, new: usize)
        requires from { CodesWithin codes.now old (length self.old.cells.items) }
        requires to { CodesWithin codes.now new (length self.old.cells.items) }
        ensures cells { self.new.cells.items ≡ moves old new self.old.cells.items codes.now }
        ensures leaves { self.new.index.items ≡ index_moves old new self.old.cells.items self.old.index.items codes.now }
        ensures kept { SameBuffers self.old self.new }
    {
        for code in codes {
            self.move_child(old + *code as usize, new + *code as usize);
        }
    }

    // Moves the children of `s`, whose codes are given, to the base `new`, which becomes the base of `s`.
    pub(super) fn move_family(&mut self, s: usize, codes: &[u16], new: usize)
        requires within { s < length self.old.cells.items }
        requires base { new < 2 ^ 31 }
        requires from { CodesWithin codes.now (base_of self.old.cells.items s) (length self.old.cells.items) }
        requires to { CodesWithin codes.now new (length self.old.cells.items) }
        ensures cells { self.new.cells.items ≡ relocated self.old.cells.items s codes.now new }
        ensures leaves { self.new.index.items ≡ index_relocated self.old.cells.items self.old.index.items s codes.now new }
        ensures kept { SameBuffers self.old self.new }
    {
        let old = self.base(s);
        self.relocate(codes, old, new);
        self.cells[s].base = new as i32;
    }

    // Gives `s` a child by the code, with the base, and says in which cell it stands, or that there is no place.
    pub(super) fn give_child(&mut self, s: usize, code: u16, base: i32) -> Option<usize>
        requires within { s < length self.old.cells.items }
        ensures place { Given self.old.cells.items self.old.index.items s code base result self.new.cells.items
            self.new.index.items }
        ensures within { IfSome result (λ t. t < length self.new.cells.items) }
        ensures kept { SameBuffers self.old self.new }
    {
        let mut codes = self.child_codes(s);
        let check = s as i32;
        let t = self.base(s) + code as usize;
        if !codes.is_empty() && self.is_free(t) {
            self.cells[t] = Cell { base, check };
            return Some(t);
        }
        codes.push(code);
        let new = self.lowest_base(codes.as_slice())?;
        codes.pop();
        self.move_family(s, codes.as_slice(), new);
        let moved = new + code as usize;
        self.cells[moved] = Cell { base, check };
        Some(moved)
    }
}

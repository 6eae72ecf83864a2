// Entering a path: new cells below the node where it leaves the tree, all undone where one has no place.
ghost use Rattle.std.specs.Prelude.{◌≡◌, ℕ, ◌+◌, ◌-◌, ◌^◌, ◌<◌, ◌≤◌, length, drop, negsuc, None, slice_index};
ghost use Rattle.cells.specs.Cells.{child as child_of};
ghost use Rattle.cells.specs.Placing.{freed_up, undo as undone};
ghost use Rattle.cells.specs.Invariant.{Sound};
ghost use Rattle.cells.specs.Laws.{Open};
ghost use Rattle.double_array.specs.Buffers.{SameBuffers};
ghost use Rattle.double_array.specs.Outcomes.{Parented, ReturnsWithin};
ghost use Rattle.double_array.specs.Views.{arrays_of};
ghost use Rattle.double_array.specs.Entries.{follow as followed, is_path, is_open, EntersPath, Extended};

use super::faults::PathFault;
use super::nodes::Nodes;
use super::paths::all_codes;
use cells::Cell;

// What an entry has done so far: the node that got a child, its base before, how many cells are new, and the last of them.
#[derive(Clone, Copy)]
struct PartialEntry {
    node: usize,
    base: usize,
    new: usize,
    tip: usize,
}

// Whether it is a path: 1 to 129 codes.
fn is_path(path: &[u16]) -> bool
    ensures { result ≡ is_path path.now }
{
    !path.is_empty() && path.len() < 130 && all_codes(path)
}

// The base of the leaf with this number.
fn leaf_base(number: u32) -> i32
    requires { (0 < number) × (number < 2 ^ 31) }
    ensures { result ≡ negsuc (number - 1) }
{
    -(number as i32)
}

impl Nodes {
    // Whether the number can be given: from 1 to 2,147,483,647, with no leaf in the index.
    fn is_open(&self, number: u32) -> bool
        ensures { result ≡ is_open self.now.index.items number }
    {
        (1..2_147_483_648).contains(&number) && self.leaf_of(number).is_none()
    }

    // Follows the path from the root as far as there are edges: the last node, and how many codes led there.
    fn follow(&self, path: &[u16]) -> (usize, usize)
        requires { 1 < length self.now.cells.items }
        ensures node { result.0 ≡ (followed self.now.cells.items 1 path.now).node }
        ensures rest { drop result.1 path.now ≡ (followed self.now.cells.items 1 path.now).rest }
        ensures within { result.0 < length self.now.cells.items }
        ensures short { result.1 ≤ length path.now }
    {
        let mut s = 1;
        for (i, code) in path.iter().enumerate() {
            match self.child(s, *code) {
                Some(t) => s = t,
                None => return (s, i),
            }
        }
        (s, path.len())
    }

    // Frees the cell `t` and the cells above it, `n` in all.
    fn free_up(&mut self, t: usize, n: usize)
        requires within { t < length self.old.cells.items }
        requires parents { Parented self.old.cells.items }
        ensures cells { self.new.cells.items ≡ freed_up n self.old.cells.items t }
        ensures index { self.new.index ≡ self.old.index }
        ensures kept { SameBuffers self.old self.new }
    {
        let mut s = t;
        for _ in 0..n {
            let above = self.parent(s);
            self.cells[s] = Cell::FREE;
            s = above;
        }
    }

    // Undoes what an entry has done so far: its new cells are freed, and the family of the node moves back if it is at another
    // base.
    fn undo(&mut self, grown: PartialEntry)
        requires node { grown.node < length self.old.cells.items }
        requires tip { grown.tip < length self.old.cells.items }
        requires base { grown.base < 2 ^ 31 }
        requires parents { Parented self.old.cells.items }
        requires to { ReturnsWithin self.old.cells.items grown.node grown.base grown.new grown.tip }
        ensures undone { arrays_of self.new
            ≡ undone self.old.cells.items self.old.index.items grown.node grown.base grown.new grown.tip }
        ensures kept { SameBuffers self.old self.new }
    {
        self.free_up(grown.tip, grown.new);
        if self.base(grown.node) != grown.base {
            let codes = self.child_codes(grown.node);
            self.move_family(grown.node, codes.as_slice(), grown.base);
        }
    }

    // Gives `s` a child by the first code, that one a child by the next, and so on to a leaf with the number. Where one has no
    // place, all is undone.
    fn extend(&mut self, s: usize, codes: &[u16], number: u32) -> Result<(), PathFault>
        requires number { (0 < number) × (number < 2 ^ 31) }
        requires some { 0 < length codes.now }
        requires sound { Sound self.old.cells.items self.old.index.items }
        requires node { Open self.old.cells.items s codes.now }
        requires missing { child_of self.old.cells.items s (slice_index codes.now 0) ≡ None }
        requires within { s < length self.old.cells.items }
        ensures cells { Extended self.old.cells.items self.old.index.items s codes.now (number - 1) result
            self.new.cells.items self.new.index.items }
        ensures kept { SameBuffers self.old self.new }
    {
        let before = self.base(s);
        let leaf = leaf_base(number);
        // With its index, which says how many cells are new where one has no place.
        let mut tip = s;
        for (i, code) in codes.iter().enumerate() {
            let base = if i + 1 < codes.len() { 0 } else { leaf };
            let Some(t) = self.give_child(tip, *code, base) else {
                self.undo(PartialEntry {
                    node: s,
                    base: before,
                    new: i,
                    tip,
                });
                return Err(PathFault::NoPlace);
            };
            tip = t;
        }
        self.note_leaf(leaf, tip);
        Ok(())
    }

    // Enters the path with the number, or says why it is refused and changes nothing.
    pub(super) fn enter(&mut self, path: &[u16], number: u32) -> Result<(), PathFault>
        requires { Sound self.old.cells.items self.old.index.items }
        ensures cells { EntersPath self.old.cells.items self.old.index.items path.now number result self.new.cells.items
            self.new.index.items }
        ensures kept { SameBuffers self.old self.new }
    {
        if !is_path(path) {
            return Err(PathFault::Path);
        }
        if !self.is_open(number) {
            return Err(PathFault::Number);
        }
        if self.cells.len() < 2 {
            return Err(PathFault::NoPlace);
        }
        let (s, i) = self.follow(path);
        if i == path.len() || self.is_leaf(s) {
            return Err(PathFault::Blocked);
        }
        self.extend(s, &path[i..], number)
    }
}

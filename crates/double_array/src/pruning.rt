// Taking a path out: cells are freed from its leaf upward, as far as no other path runs through them.
ghost use Rattle.std.specs.Prelude.{◌≡◌, ◌<◌, length};
ghost use Rattle.cells.specs.Pruning.{prune as pruned, root_reset};
ghost use Rattle.double_array.specs.Buffers.{SameBuffers};
ghost use Rattle.double_array.specs.Outcomes.{Parented, Taken};

use super::nodes::Nodes;
use super::paths::leaf_number;
use cells::Cell;

impl Nodes {
    // Frees cells from `t` upward, `n` at most: it stops below the first that still has a child.
    fn prune(&mut self, t: usize, n: usize)
        requires within { t < length self.old.cells.items }
        requires parents { Parented self.old.cells.items }
        ensures cells { self.new.cells.items ≡ pruned n self.old.cells.items t }
        ensures index { self.new.index ≡ self.old.index }
        ensures kept { SameBuffers self.old self.new }
    {
        let mut s = t;
        for _ in 0..n {
            let above = self.parent(s);
            self.cells[s] = Cell::FREE;
            if self.has_child(above) {
                return;
            }
            s = above;
        }
    }

    // Gives a root without children the base 1.
    fn reset_root(&mut self)
        requires { 1 < length self.old.cells.items }
        ensures cells { self.new.cells.items ≡ root_reset self.old.cells.items }
        ensures index { self.new.index ≡ self.old.index }
        ensures kept { SameBuffers self.old self.new }
    {
        if !self.has_child(1) {
            self.cells[1] = Cell::ROOT;
        }
    }

    // Takes the path out and says its number, or changes nothing where the path is not held.
    pub(super) fn take_out(&mut self, path: &[u16]) -> Option<u32>
        requires { 1 < length self.old.cells.items → Parented self.old.cells.items }
        ensures cells { Taken self.old.cells.items self.old.index.items path.now result self.new.cells.items
            self.new.index.items }
        ensures kept { SameBuffers self.old self.new }
    {
        let t = self.cell_at(path)?;
        let base = self.cells[t].base;
        let number = leaf_number(base)?;
        self.prune(t, path.len());
        self.reset_root();
        self.note_leaf(base, 0);
        Some(number)
    }
}

// Reading: the number at the end of a path, the path that leads to a cell, and how many cells are in use.
ghost use Rattle.std.specs.Prelude.{◌≡◌, ◌-◌, ◌<◌, length, IfSome};
ghost use Rattle.cells.specs.Cells.{parent, number, is_code, all_codes, label_code, label_of};
ghost use Rattle.cells.specs.Walking.{number_at, path_to};
ghost use Rattle.cells.specs.Counting.{in_use};
ghost use Rattle.double_array.specs.Outcomes.{Upward};
ghost use Rattle.double_array.specs.Spellings.{leaf_in, cell_from_root, Pointed, Written};

use super::edges::walk;
use super::faults::NumberFault;
use super::nodes::Nodes;
use cells::Cell;

// Whether it is the code of the end sign, 1, or of a label, 2 to 257.
fn is_code(code: u16) -> bool
    ensures { result ≡ is_code code }
{
    code > 0 && code < 258
}

// Whether each of them is a code.
pub(super) fn all_codes(path: &[u16]) -> bool
    ensures { result ≡ all_codes path.now }
{
    path.iter().all(|code| is_code(*code))
}

// The number of the leaf with this base.
pub fn leaf_number(base: i32) -> Option<u32>
    ensures { result ≡ number base }
{
    (base < 0).then(|| base.unsigned_abs())
}

// The code of a label: 2 more.
pub fn label_code(label: u8) -> u16
    ensures { result ≡ label_code label }
{
    label as u16 + 2
}

// The label of a code: none where it is the code of no label.
pub fn label_of(code: u16) -> Option<u8>
    ensures { result ≡ label_of code }
{
    u8::try_from(code.checked_sub(2)?).ok()
}

// The cell that the path leads to from the root, in any cells: none where there is no root.
pub fn cell_at(cells: &[Cell], path: &[u16]) -> Option<usize>
    ensures cell { result ≡ cell_from_root cells.now path.now }
    ensures within { IfSome result (λ t. t < length cells.now) }
{
    if cells.len() > 1 && all_codes(path) {
        walk(cells, path)
    } else {
        None
    }
}

// How many of the cells are in use. A sum, since `filter` and `count` take twice the time.
pub(super) fn in_use(cells: &[Cell]) -> usize
    ensures { result ≡ in_use cells.now }
{
    match cells {
        [_, rest @ ..] => rest.iter().map(|cell| usize::from(cell.check > 0)).sum(),
        [] => 0,
    }
}

impl Nodes {
    // The cell that the path leads to from the root: none where there is no root.
    pub(super) fn cell_at(&self, path: &[u16]) -> Option<usize>
        ensures cell { result ≡ cell_from_root self.now.cells.items path.now }
        ensures within { IfSome result (λ t. t < length self.now.cells.items) }
    {
        cell_at(&self.cells, path)
    }

    // The number of the leaf that the path leads to.
    pub(super) fn number_at(&self, path: &[u16]) -> Option<u32>
        ensures { result ≡ number_at self.now.cells.items path.now }
    {
        let t = self.cell_at(path)?;
        leaf_number(self.cells[t].base)
    }

    // How many codes lead to the cell `t`.
    fn path_length(&self, t: usize) -> usize
        requires upward { Upward self.now.cells.items }
        requires used { 0 < parent self.now.cells.items t }
        ensures { result ≡ length (path_to self.now.cells.items t) }
    {
        // A loop: of the steps that `successors` takes no contract says how many there are.
        let mut s = t;
        for n in 0..self.cells.len() {
            if s == 1 {
                return n;
            }
            s = self.parent(s);
        }
        self.cells.len()
    }

    // Writes the path that leads to the cell `t` into `out`, which is as long as the path.
    fn write_path(&self, t: usize, out: &mut [u16])
        requires upward { Upward self.now.cells.items }
        requires used { 0 < parent self.now.cells.items t }
        requires long { length out.old ≡ length (path_to self.now.cells.items t) }
        ensures { out.new ≡ path_to self.now.cells.items t }
    {
        let mut s = t;
        // By index: of what is written through `iter_mut().rev()` a proof knows nothing afterwards.
        for i in (0..out.len()).rev() {
            let above = self.parent(s);
            out[i] = (s - self.base(above)) as u16;
            s = above;
        }
    }

    // The leaf of the number, by the index.
    pub(super) fn leaf_of(&self, number: u32) -> Option<usize>
        ensures { result ≡ leaf_in self.now.index.items number }
    {
        let entry = number.checked_sub(1)?;
        let t = *self.index.get(entry as usize)?;
        (t > 0).then_some(t as usize)
    }

    // Writes the path of the number into the front of `out` and says its length, or writes nothing where the number has no
    // leaf or `out` is too short.
    pub(super) fn path_of(&self, number: u32, out: &mut [u16]) -> Result<usize, NumberFault>
        requires upward { Upward self.now.cells.items }
        requires leaves { Pointed self.now.cells.items self.now.index.items }
        ensures { Written self.now.cells.items self.now.index.items number out.old result out.new }
    {
        let t = self.leaf_of(number).ok_or(NumberFault::Unknown)?;
        let n = self.path_length(t);
        if out.len() < n {
            return Err(NumberFault::Short);
        }
        self.write_path(t, &mut out[0..n]);
        Ok(n)
    }

    // How many cells are in use.
    pub(super) fn in_use(&self) -> usize
        ensures { result ≡ in_use self.now.cells.items }
    {
        in_use(&self.cells)
    }
}

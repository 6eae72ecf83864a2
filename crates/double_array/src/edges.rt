// Looking at nodes: which cells are free, and which child a code leads to.
ghost use Rattle.std.specs.Prelude.{◌≡◌, ◌^◌, ◌<◌, ◌≤◌, length, IfSome};
ghost use Rattle.arrayvec.specs.ArrayVec.{array_vec_len};
ghost use Rattle.cells.specs.Cells.{nat, base_of, parent, is_free, is_leaf, child as child_of, child_codes, some_code};
ghost use Rattle.cells.specs.Walking.{walk as walk_from};

use super::nodes::Nodes;
use arrayvec::ArrayVec;
use cells::Cell;

// A signed number as the number of a cell: 0 where it is negative.
fn cell_number(value: i32) -> usize
    ensures number { result ≡ nat value }
    ensures small { result < 2 ^ 31 }
{
    value.max(0) as usize
}

// The child of `s` by the code, in any cells: none where there is no cell `s`.
#[inline]
pub fn child(cells: &[Cell], s: usize, code: u16) -> Option<usize>
    ensures child { result ≡ child_of cells.now s code }
    ensures within { IfSome result (λ t. t < length cells.now) }
{
    let base = cells.get(s)?.base;
    if base <= 0 {
        return None;
    }
    let t = base as usize + code as usize;
    let check = cells.get(t)?.check;
    (i64::from(check) == s as i64).then_some(t)
}

// The cell that the path leads to from the root.
pub(super) fn walk(cells: &[Cell], path: &[u16]) -> Option<usize>
    requires { 1 < length cells.now }
    ensures cell { result ≡ walk_from cells.now 1 path.now }
    ensures within { IfSome result (λ t. t < length cells.now) }
{
    let mut s = 1;
    for code in path {
        s = child(cells, s, *code)?;
    }
    Some(s)
}

impl Nodes {
    // Whether the cell `t` exists and is free.
    pub(super) fn is_free(&self, t: usize) -> bool
        ensures { result ≡ is_free self.now.cells.items t }
    {
        self.cells.get(t) == Some(&Cell::FREE)
    }

    // Whether `s` is a leaf.
    pub(super) fn is_leaf(&self, s: usize) -> bool
        requires { s < length self.now.cells.items }
        ensures { result ≡ is_leaf self.now.cells.items s }
    {
        self.cells[s].base < 0
    }

    // The base of `s`: 0 in a leaf and in a free cell.
    pub(super) fn base(&self, s: usize) -> usize
        requires { s < length self.now.cells.items }
        ensures base { result ≡ base_of self.now.cells.items s }
        ensures small { result < 2 ^ 31 }
    {
        cell_number(self.cells[s].base)
    }

    // The parent of `t`, the cell above it: 0 for a free cell.
    pub(super) fn parent(&self, t: usize) -> usize
        requires { t < length self.now.cells.items }
        ensures { result ≡ parent self.now.cells.items t }
    {
        cell_number(self.cells[t].check)
    }

    // The child of `s` by the code: none where there is no cell `s`.
    pub(super) fn child(&self, s: usize, code: u16) -> Option<usize>
        ensures child { result ≡ child_of self.now.cells.items s code }
        ensures within { IfSome result (λ t. t < length self.now.cells.items) }
    {
        child(&self.cells, s, code)
    }

    // The codes by which `s` has a child, in rising order.
    pub(super) fn child_codes(&self, s: usize) -> ArrayVec<u16, 258>
        ensures few { array_vec_len result ≤ 257 }
        ensures codes { result.items ≡ child_codes self.now.cells.items s }
    {
        let mut codes = ArrayVec::new();
        for code in 1..258 {
            if self.child(s, code).is_some() {
                codes.push(code);
            }
        }
        codes
    }

    // Whether `s` has a child.
    pub(super) fn has_child(&self, s: usize) -> bool
        ensures { result ≡ some_code (child_codes self.now.cells.items s) }
    {
        (1..258).any(|code| self.child(s, code).is_some())
    }
}

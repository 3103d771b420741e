//! A cell, what it holds, and cells linked in order.
ghost use Rattle.std.specs.Prelude.{◌≡◌, ℕ, ◌+◌, ◌-◌, ◌<◌, ◌≤◌, map, length, slice_index, slice_index_or};
ghost use Rattle.chain.specs.Lists.{up_to};

/// A cell: the number of the next one, from 1, or 0 at the end of the chain, and what it holds.
#[derive(Clone, Copy)]
pub struct Cell<T: Copy> {
    pub next: usize,
    pub value: T,
}

/// What node `node` holds.
pub fn element<T: Copy>(cells: &[Cell<T>], node: usize) -> T
    requires from { 0 < node }
    requires to { node ≤ length cells.now }
    ensures { (d : T) → result ≡ slice_index_or (map (λ c. c.value) cells.now) (node - 1) d }
{
    cells[node - 1].value
}

/// Links the cells into one chain, in order.
pub fn link_all<T: Copy>(cells: &mut [Cell<T>])
    ensures { (k : ℕ) → k < length cells.new → slice_index (map (λ c. c.next) cells.new) k ≡ slice_index (up_to (length cells.new)) (k + 1) }
{
    let n = cells.len();
    for (i, cell) in cells.iter_mut().enumerate() {
        cell.next = if i + 1 < n { i + 2 } else { 0 };
    }
}

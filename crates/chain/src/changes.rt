//! Sound chains over lent cells, to be changed.
ghost use Rattle.std.specs.Prelude.{◌≡◌, ℕ, ◌+◌, ◌<◌, ◌≤◌, [], map, length, ◌≢◌, slice_index, slice_index_or, slice_set};
ghost use Rattle.std.specs.List.{insert, remove};
ghost use Rattle.std.proofs.Props.{props};
ghost use Rattle.chain.specs.Lists.{slot_of, pointers, relinked, Sound, Before, nodes_of, elements, free};

use super::cells::{Cell, element, link_all};
use super::chains::after;

/// Makes all chains empty over the lent cells: each cell is free.
// It takes the slices: as a constructor of a `ChainsMut` it would have to say besides whose memory that holds.
pub fn free_all<T: Copy>(heads: &mut [usize], cells: &mut [Cell<T>])
    requires { 0 < length heads.old }
    ensures sound { Sound heads.new cells.new }
    ensures empty { (c : ℕ) → 0 < c → c < length heads.new → nodes_of heads.new cells.new c ≡ [] }
    ensures free { free heads.new cells.new ≡ length cells.new }
{
    link_all(cells);
    heads.fill(0);
    if !cells.is_empty() {
        heads[0] = 1;
    }
}

/// Makes `target` the node after `node` of chain `chain`, or its first at node 0.
// This step and `shift` take the slices and no `ChainsMut`: between their writes the chains are not sound.
fn point<T: Copy>(
    heads: &mut [usize],
    cells: &mut [Cell<T>],
    chain: usize,
    node: usize,
    target: usize,
)
    requires chain { chain < length heads.old }
    requires node { node ≤ length cells.old }
    ensures pointers { pointers heads.new cells.new ≡ slice_set (pointers heads.old cells.old) (slot_of (length heads.old) chain node) target }
    ensures values { map (λ c. c.value) cells.new ≡ map (λ c. c.value) cells.old }
{
    if node == 0 {
        heads[chain] = target;
    } else {
        cells[node - 1].next = target;
    }
}

/// Takes the node after node `a` of chain `from` to after node `b` of chain `to`.
fn shift<T: Copy>(
    heads: &mut [usize],
    cells: &mut [Cell<T>],
    from: usize,
    a: usize,
    to: usize,
    b: usize,
)
    requires from { from < length heads.old }
    requires to { to < length heads.old }
    requires a { a ≤ length cells.old }
    requires b { b ≤ length cells.old }
    requires some { 0 < slice_index (pointers heads.old cells.old) (slot_of (length heads.old) from a) }
    requires within { slice_index (pointers heads.old cells.old) (slot_of (length heads.old) from a) ≤ length cells.old }
    ensures pointers { pointers heads.new cells.new ≡ relinked (length heads.old) (pointers heads.old cells.old) (slice_index (pointers heads.old cells.old) (slot_of (length heads.old) from a)) (slot_of (length heads.old) from a) (slot_of (length heads.old) to b) }
    ensures values { map (λ c. c.value) cells.new ≡ map (λ c. c.value) cells.old }
{
    let x = after(heads, cells, from, a);
    let y = after(heads, cells, to, b);
    let z = after(heads, cells, from, x);
    point(heads, cells, from, a, z);
    point(heads, cells, to, b, x);
    point(heads, cells, to, x, y);
}

/// Sound chains, lent to be changed.
#[derive(Drop)]
pub struct ChainsMut<'h, 'c, T: Copy> {
    pub heads: &'h mut [usize],
    pub cells: &'c mut [Cell<T>],
    pub ghost sound: { Sound heads.now cells.now } by { Prim.hlevel props },
}

impl<T: Copy> ChainsMut<'_, '_, T> {
    /// Puts `value` into chain `chain` after node `node`, or first at node 0, in a free cell.
    pub fn put_after(&mut self, chain: usize, node: usize, value: T)
        requires from { 0 < chain }
        requires to { chain < length self.old.heads.now }
        requires at { (p : ℕ) × Before (nodes_of self.old.heads.now self.old.cells.now chain) node p }
        requires room { 0 < free self.old.heads.now self.old.cells.now }
        ensures same_heads { self.new.heads.ghost_name ≡ self.old.heads.ghost_name }
        ensures same_cells { self.new.cells.ghost_name ≡ self.old.cells.ghost_name }
        ensures width { length self.new.heads.now ≡ length self.old.heads.now }
        ensures size { length self.new.cells.now ≡ length self.old.cells.now }
        ensures here { (p : ℕ) (d : T) → Before (nodes_of self.old.heads.now self.old.cells.now chain) node p → elements d self.new.heads.now self.new.cells.now chain ≡ insert (elements d self.old.heads.now self.old.cells.now chain) p value }
        ensures there { (c : ℕ) (d : T) → 0 < c → c < length self.old.heads.now → (c ≢ chain) → elements d self.new.heads.now self.new.cells.now c ≡ elements d self.old.heads.now self.old.cells.now c }
        ensures free { free self.new.heads.now self.new.cells.now + 1 ≡ free self.old.heads.now self.old.cells.now }
    {
        let heads = &mut *self.heads;
        let cells = &mut *self.cells;
        let x = after(heads, cells, 0, 0);
        cells[x - 1].value = value;
        shift(heads, cells, 0, 0, chain, node);
    }

    /// Takes the node after node `node`, or the first at node 0, out of chain `chain`, and tells what it held; its cell is free then.
    pub fn take_after(&mut self, chain: usize, node: usize) -> T
        requires from { 0 < chain }
        requires to { chain < length self.old.heads.now }
        requires at { (p : ℕ) × Before (nodes_of self.old.heads.now self.old.cells.now chain) node p × (p < length (nodes_of self.old.heads.now self.old.cells.now chain)) }
        ensures same_heads { self.new.heads.ghost_name ≡ self.old.heads.ghost_name }
        ensures same_cells { self.new.cells.ghost_name ≡ self.old.cells.ghost_name }
        ensures width { length self.new.heads.now ≡ length self.old.heads.now }
        ensures size { length self.new.cells.now ≡ length self.old.cells.now }
        ensures answer { (p : ℕ) (d : T) → Before (nodes_of self.old.heads.now self.old.cells.now chain) node p → p < length (nodes_of self.old.heads.now self.old.cells.now chain) → result ≡ slice_index_or (elements d self.old.heads.now self.old.cells.now chain) p d }
        ensures here { (p : ℕ) (d : T) → Before (nodes_of self.old.heads.now self.old.cells.now chain) node p → p < length (nodes_of self.old.heads.now self.old.cells.now chain) → elements d self.new.heads.now self.new.cells.now chain ≡ remove (elements d self.old.heads.now self.old.cells.now chain) p }
        ensures there { (c : ℕ) (d : T) → 0 < c → c < length self.old.heads.now → (c ≢ chain) → elements d self.new.heads.now self.new.cells.now c ≡ elements d self.old.heads.now self.old.cells.now c }
        ensures free { free self.new.heads.now self.new.cells.now ≡ free self.old.heads.now self.old.cells.now + 1 }
    {
        let heads = &mut *self.heads;
        let cells = &mut *self.cells;
        let taken = after(heads, cells, chain, node);
        let held = element(cells, taken);
        shift(heads, cells, chain, node, 0, 0);
        held
    }

    /// Frees all nodes of chain `chain`.
    pub fn free_chain(&mut self, chain: usize)
        requires from { 0 < chain }
        requires to { chain < length self.old.heads.now }
        ensures same_heads { self.new.heads.ghost_name ≡ self.old.heads.ghost_name }
        ensures same_cells { self.new.cells.ghost_name ≡ self.old.cells.ghost_name }
        ensures width { length self.new.heads.now ≡ length self.old.heads.now }
        ensures size { length self.new.cells.now ≡ length self.old.cells.now }
        ensures here { nodes_of self.new.heads.now self.new.cells.now chain ≡ [] }
        ensures there { (c : ℕ) (d : T) → 0 < c → c < length self.old.heads.now → (c ≢ chain) → elements d self.new.heads.now self.new.cells.now c ≡ elements d self.old.heads.now self.old.cells.now c }
        ensures free { free self.new.heads.now self.new.cells.now ≡ free self.old.heads.now self.old.cells.now + length (nodes_of self.old.heads.now self.old.cells.now chain) }
    {
        while self.heads[chain] != 0 {
            let _ = self.take_after(chain, 0);
        }
    }
}

//! Sound chains over lent cells, to be read.
ghost use Rattle.std.specs.Prelude.{◌≡◌, ◌^◌, ◌<◌, ◌≤◌, length, MatchOption, slice_index, slice_index_or};
ghost use Rattle.std.proofs.Props.{props};
ghost use Rattle.chain.specs.Lists.{slot_of, pointers, Sound, nodes_of, elements};

use super::cells::{Cell, element};
use super::nodes::Nodes;

/// The node after `node` of chain `chain`, or its first at node 0; 0 at the chain's end.
// 0 and no `Option`: cells store 0 at a chain's end, and a node that is passed on as a place takes 0 for the front.
// It takes the slices, since it asks nothing of the chains: a `Chains` would ask that they are sound.
pub fn after<T: Copy>(heads: &[usize], cells: &[Cell<T>], chain: usize, node: usize) -> usize
    requires chain { chain < length heads.now }
    requires node { node ≤ length cells.now }
    ensures { result ≡ slice_index (pointers heads.now cells.now) (slot_of (length heads.now) chain node) }
{
    if node == 0 {
        return heads[chain];
    }
    cells[node - 1].next
}

/// Sound chains, lent to be read.
#[derive(Drop)]
pub struct Chains<'m, T: Copy> {
    pub heads: &'m [usize],
    pub cells: &'m [Cell<T>],
    pub ghost sound: { Sound heads.now cells.now } by { Prim.hlevel props },
}

impl<'m, T: Copy> Chains<'m, T> {
    ghost use Rattle.chain.specs.Nodes.{nodes_left};

    /// The nodes of chain `chain`, in order.
    pub fn nodes(&self, chain: usize) -> Nodes<'m, T>
        requires { chain < length self.now.heads.now }
        ensures order { nodes_left result ≡ nodes_of self.now.heads.now self.now.cells.now chain }
        ensures few { length (nodes_left result) < 2 ^ 64 }
    {
        Nodes {
            cells: self.cells,
            node: self.heads[chain],
            left: self.cells.len(),
        }
    }

    /// The node at `position` of chain `chain`, or 0 past its end.
    // 0 past the end, as `after` answers: its clause says so, and a place that is passed on takes 0 for the front.
    pub fn node_at(&self, chain: usize, position: usize) -> usize
        requires { chain < length self.now.heads.now }
        ensures { result ≡ slice_index (nodes_of self.now.heads.now self.now.cells.now chain) position }
    {
        self.nodes(chain).nth(position).unwrap_or(0)
    }

    /// What stands at `position` of chain `chain`, if anything does.
    pub fn element_at(&self, chain: usize, position: usize) -> Option<T>
        requires { chain < length self.now.heads.now }
        ensures { MatchOption result (length (nodes_of self.now.heads.now self.now.cells.now chain) ≤ position) (λ x. (position < length (nodes_of self.now.heads.now self.now.cells.now chain)) × ((d : T) → x ≡ slice_index_or (elements d self.now.heads.now self.now.cells.now chain) position d)) }
    {
        let node = self.nodes(chain).nth(position)?;
        Some(element(self.cells, node))
    }

    /// How many nodes chain `chain` has.
    pub fn count(&self, chain: usize) -> usize
        requires { chain < length self.now.heads.now }
        ensures { result ≡ length (nodes_of self.now.heads.now self.now.cells.now chain) }
    {
        self.nodes(chain).count()
    }
}

//! The nodes of a chain, one after another.
ghost use Rattle.std.specs.Iterator.{YieldsFirst, item_count};
ghost use Rattle.chain.specs.Nodes.{nodes_left};

use super::cells::Cell;

/// The nodes met from `node` on, at most `left` of them; node 0 ends the chain.
#[derive(Drop)]
pub struct Nodes<'m, T: Copy> {
    pub(crate) cells: &'m [Cell<T>],
    pub(crate) node: usize,
    pub(crate) left: usize,
}

impl<T: Copy> Iterator for Nodes<'_, T> {
    type Item = usize;

    ghost next_gives = { YieldsFirst nodes_left };

    ghost remaining = { item_count nodes_left };

    fn next(&mut self) -> Option<usize> {
        let node = self.node;
        if node == 0 || self.left == 0 {
            return None;
        }
        self.left -= 1;
        self.node = self.cells.get(node - 1).map_or(0, |cell| cell.next);
        Some(node)
    }
}

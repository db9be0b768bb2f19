// How nodes are read and kept.
ghost use Rattle.std.specs.Prelude.{◌≡◌, true, [], length, IfOk};
ghost use Rattle.trees.specs.Nodes.{tree_of, trees, tree_at, is_over, Kept};
ghost use Rattle.trees.specs.Stores.{nodes_of, Stands};

use super::Trees;
use crate::node::Node;
use indexmap::IndexSet;
use std::alloc::{AllocError, Global};

impl Trees {
    pub fn new(heap: Global) -> Trees
        ensures made { nodes_of result ≡ [] }
    {
        Trees {
            nodes: IndexSet::new(heap),
        }
    }

    // Node t; where there is none, one without outs.
    pub(crate) fn node(&self, t: usize) -> Node
        ensures tree { tree_at (nodes_of self.now) t ≡ tree_of (trees (nodes_of self.now)) result }
        ensures over { is_over t result ≡ true }
    {
        self.nodes.get_index(t).copied().unwrap_or(Node::Nothing)
    }

    // The number of a node like this.
    pub(crate) fn keep(&mut self, node: Node) -> Result<usize, AllocError>
        requires over { is_over (length (nodes_of self.old)) node ≡ true }
        ensures kept { Kept (nodes_of self.old) (nodes_of self.new) }
        ensures made { IfOk result (λ k. Stands (nodes_of self.new) k (tree_of (trees (nodes_of self.old)) node)) }
    {
        let (number, _) = self.nodes.insert_full(node)?;
        Ok(number)
    }
}

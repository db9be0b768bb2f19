// A store of trees. What holds of every store stands in its type.
ghost use Rattle.std.specs.Prelude.{◌≡◌, true};
ghost use Rattle.trees.specs.Nodes.{ordered};

use crate::node::Node;
use indexmap::IndexSet;

mod keeps;
mod marks;

// Trees go by the numbers of their nodes: a tree is kept once, others share it, and equal ones are told by their numbers.
#[derive(Drop)]
pub struct Trees {
    nodes: IndexSet<Node>,
    ghost ordered: { ordered 0 nodes.keys ≡ true },
}

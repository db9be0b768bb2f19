// The values of a field that trees name.
ghost use Rattle.std.specs.Prelude.{◌≡◌, length, IfOk, vec_len};
ghost use Rattle.trees.specs.Names.{named_by};
ghost use Rattle.trees.specs.Search.{Marked};
ghost use Rattle.trees.specs.Stores.{nodes_of};

use super::Trees;
use crate::node::Node;
use std::alloc::AllocError;

// How many values a field can have.
const VALUES: usize = 65536;

impl Node {
    // The value that the node names of the field: it tests or sets it.
    fn named(self, f: u8) -> Option<u16>
        ensures value { result ≡ named_by f self }
    {
        match self {
            Node::Nothing => None,
            Node::Also { out, .. } => out.set(f),
            Node::Test { field, value, .. } => (field == f).then_some(value),
        }
    }
}

// Marks the values that the nodes name.
fn mark(nodes: &[Node], f: u8, marks: &mut [bool])
    requires room { length marks.old ≡ 65536 }
    ensures marked { Marked f nodes.now marks.new }
{
    for node in nodes {
        if let Some(x) = node.named(f) {
            marks[x as usize] = true;
        }
    }
}

impl Trees {
    // Which values of the field f the trees name. A flag for each value, since all of them are gone over in order.
    pub(crate) fn marks(&self, f: u8) -> Result<Vec<bool>, AllocError>
        ensures made { IfOk result (λ ms. (vec_len ms ≡ 65536) × Marked f (nodes_of self.now) ms.items) }
    {
        let mut marks = vec![in *self.nodes.allocator(); false; VALUES]?;
        mark(self.nodes.as_slice(), f, marks.as_mut_slice());
        Ok(marks)
    }
}

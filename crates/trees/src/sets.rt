// Sets of outs, in rising order and each once.
ghost use Rattle.std.specs.Prelude.{◌≡◌, ◌<◌, ◌∷◌, length, IfOk};
ghost use Rattle.trees.specs.Nodes.{Kept};
ghost use Rattle.trees.specs.Stores.{nodes_of, Inserted};

use crate::node::Node;
use crate::out::Out;
use crate::store::Trees;
use std::alloc::AllocError;

impl Trees {
    // The tree t with one out more, at its place in a set.
    pub(crate) fn insert(&mut self, out: Out, t: usize) -> Result<usize, AllocError>
        requires there { t < length (nodes_of self.old) }
        ensures kept { Kept (nodes_of self.old) (nodes_of self.new) }
        ensures made { IfOk result (Inserted (nodes_of self.old) (nodes_of self.new) out.sets t) }
    {
        if let Node::Also { out: first, rest } = self.node(t) {
            if out == first {
                return Ok(t);
            }
            if first < out {
                let more = self.insert(out, rest)?;
                return self.keep(Node::Also {
                    out: first,
                    rest: more,
                });
            }
        }
        self.keep(Node::Also { out, rest: t })
    }
}

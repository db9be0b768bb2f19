// Whether two trees give a packet the same copies.
ghost use mathlib.Core.List.{Memᴰ};
ghost use Rattle.std.specs.Prelude.{Decides};
ghost use Rattle.trees.specs.Trees.{copies_by, Alike};
ghost use Rattle.trees.specs.Nodes.{tree_at};
ghost use Rattle.trees.specs.Search.{Within};
ghost use Rattle.trees.specs.Stores.{nodes_of};

use crate::given::next;
use crate::node::Node;
use crate::store::Trees;
use packet::Packet;

impl Trees {
    // Whether c is a copy that t gives of the packet.
    fn gives(&self, t: usize, c: Packet, p: Packet) -> bool
        ensures test { Decides result (Memᴰ c.fields (copies_by (tree_at (nodes_of self.now) t) p.fields)) }
    {
        match self.node(t) {
            Node::Nothing => false,
            Node::Also { out, rest } => out.apply(p) == c || self.gives(rest, c, p),
            Node::Test {
                field,
                value,
                met,
                unmet,
            } => self.gives(next(p.field(field) == value, met, unmet), c, p),
        }
    }

    // Whether each copy that s gives is one that t gives.
    fn is_within(&self, s: usize, t: usize, p: Packet) -> bool
        ensures test { Decides result (Within (tree_at (nodes_of self.now) s) (tree_at (nodes_of self.now) t) p.fields) }
    {
        match self.node(s) {
            Node::Nothing => true,
            Node::Also { out, rest } => {
                self.gives(t, out.apply(p), p) && self.is_within(rest, t, p)
            }
            Node::Test {
                field,
                value,
                met,
                unmet,
            } => self.is_within(next(p.field(field) == value, met, unmet), t, p),
        }
    }

    // Whether both give the same copies.
    pub(crate) fn agree(&self, a: usize, b: usize, p: Packet) -> bool
        ensures test { Decides result (Alike (tree_at (nodes_of self.now) a) (tree_at (nodes_of self.now) b) p.fields) }
    {
        self.is_within(a, b, p) && self.is_within(b, a, p)
    }
}

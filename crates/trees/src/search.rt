// The smallest packet of which two trees give different copies, field by field and smaller values first.
ghost use Rattle.std.specs.Prelude.{◌≡◌, ◌+◌, ◌<◌, [], ◌∷◌, length, IfOk};
ghost use Rattle.packet.specs.Packet.{put};
ghost use Rattle.trees.specs.Nodes.{tree_at, Kept};
ghost use Rattle.trees.specs.Search.{Settled};
ghost use Rattle.trees.specs.Stages.{There, SettledIn};
ghost use Rattle.trees.specs.Stores.{nodes_of};

use crate::given::DEPTH;
use crate::stage::Stage;
use crate::store::Trees;
use packet::Packet;
use std::alloc::AllocError;

impl Trees {
    // Equal trees are settled at once.
    #[cycle(settle_settle_at_walk)]
    fn settle(&mut self, at: Stage) -> Result<Option<Packet>, AllocError>
        requires there { There (nodes_of self.old) at }
        ensures kept { Kept (nodes_of self.old) (nodes_of self.new) }
        ensures made { IfOk result (SettledIn (nodes_of self.old) at) }
    {
        if at.first == at.second {
            return Ok(None);
        }
        if at.field < 8 {
            return self.walk(at);
        }
        if self.agree(at.first, at.second, at.packet) {
            Ok(None)
        } else {
            Ok(Some(at.packet))
        }
    }

    // The same, where the field has the value x.
    #[cycle(settle_settle_at_walk)]
    fn settle_at(&mut self, at: Stage, x: u16) -> Result<Option<Packet>, AllocError>
        requires there { There (nodes_of self.old) at }
        requires low { at.field < 8 }
        ensures kept { Kept (nodes_of self.old) (nodes_of self.new) }
        ensures made { IfOk result (Settled (tree_at (nodes_of self.old) at.first) (tree_at (nodes_of self.old) at.second) (at.field + 1) (put at.field x at.packet.fields)) }
    {
        let first = self.given(at.first, at.field, x, DEPTH)?;
        let second = self.given(at.second, at.field, x, DEPTH)?;
        self.settle(Stage {
            first,
            second,
            field: at.field + 1,
            packet: at.packet.put(at.field, x),
        })
    }

    // Goes over the values of the field. Of those that are named nowhere the smallest stands for all.
    #[cycle(settle_settle_at_walk)]
    fn walk(&mut self, at: Stage) -> Result<Option<Packet>, AllocError>
        requires there { There (nodes_of self.old) at }
        requires low { at.field < 8 }
        ensures kept { Kept (nodes_of self.old) (nodes_of self.new) }
        ensures made { IfOk result (SettledIn (nodes_of self.old) at) }
    {
        let marks = self.marks(at.field)?;
        let mut stood = false;
        for (x, named) in marks.iter().enumerate() {
            if !*named && stood {
                continue;
            }
            if let Some(found) = self.settle_at(at, x as u16)? {
                return Ok(Some(found));
            }
            stood |= !*named;
        }
        Ok(None)
    }

    // The smallest packet of which the trees give different copies.
    pub fn first_difference(
        &mut self,
        first: usize,
        second: usize,
    ) -> Result<Option<Packet>, AllocError>
        requires first { first < length (nodes_of self.old) }
        requires second { second < length (nodes_of self.old) }
        ensures made { IfOk result (Settled (tree_at (nodes_of self.old) first) (tree_at (nodes_of self.old) second) 0 (0 ∷ (0 ∷ (0 ∷ (0 ∷ (0 ∷ (0 ∷ (0 ∷ (0 ∷ []))))))))) }
    {
        self.settle(Stage {
            first,
            second,
            field: 0,
            packet: Packet::default(),
        })
    }
}

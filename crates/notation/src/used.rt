// Which nodes a node has used.
ghost use Rattle.std.specs.Prelude.{◌≡◌, ◌≤◌, true, false, replicate, slice_set};
ghost use Rattle.notation.specs.Operands.{latest, marked};

use text::{MOST, Node};

#[derive(Clone, Copy)]
pub struct Used {
    flags: [bool; MOST],
}

impl Used {
    pub fn none() -> Used
        ensures value { result.flags ≡ replicate 512 false }
    {
        Used {
            flags: [false; MOST],
        }
    }

    // The latest of the first n nodes that is not used.
    pub fn latest(&self, n: usize) -> Option<u16>
        requires { n ≤ 512 }
        ensures value { result ≡ latest self.now.flags n }
    {
        let latest = self.flags[..n].iter().rposition(|used| !*used)?;
        Some(latest as u16)
    }

    fn mark(&mut self, k: u16)
        ensures after { self.new.flags ≡ slice_set self.old.flags k true }
    {
        let k = usize::from(k);
        if k < MOST {
            self.flags[k] = true;
        }
    }

    // Marks the operands of a node.
    pub fn mark_operands(&mut self, n: Node)
        ensures after { self.new.flags ≡ marked n self.old.flags }
    {
        match n {
            Node::Always | Node::Is(_, _) | Node::Put(_, _) => {}
            Node::Not(a) | Node::Keep(a) => self.mark(a),
            Node::Both(a, b) | Node::Either(a, b) | Node::And(a, b) | Node::Then(a, b) => {
                self.mark(a);
                self.mark(b);
            }
        }
    }
}

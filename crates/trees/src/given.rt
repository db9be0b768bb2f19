// What trees do where a field is known to have a value.
ghost use Rattle.std.specs.Prelude.{◌≡◌, ◌<◌, cond, length, IfOk};
ghost use Rattle.trees.specs.Nodes.{Kept};
ghost use Rattle.trees.specs.Stores.{nodes_of, Given, Tested, Like};

use crate::node::Node;
use crate::store::Trees;
use std::alloc::AllocError;

// A test may be left out for what stands below it, and so on, once for each field.
pub(crate) const DEPTH: u8 = 8;

pub(crate) fn next(is_met: bool, met: usize, unmet: usize) -> usize
    ensures value { result ≡ cond is_met met unmet }
{
    if is_met { met } else { unmet }
}

impl Trees {
    // What t does where the field f has the value x: without tests of the field, and without outs that set it to x.
    #[cycle(given_test)]
    pub(crate) fn given(&mut self, t: usize, f: u8, x: u16, depth: u8) -> Result<usize, AllocError>
        requires there { t < length (nodes_of self.old) }
        ensures kept { Kept (nodes_of self.old) (nodes_of self.new) }
        ensures made { IfOk result (Given (nodes_of self.old) (nodes_of self.new) f x t) }
    {
        match self.node(t) {
            Node::Nothing => Ok(t),
            Node::Also { out, rest } => {
                let less = self.given(rest, f, x, depth)?;
                let kept = out.without(f, x);
                if less == rest && kept == out {
                    return Ok(t);
                }
                self.insert(kept, less)
            }
            Node::Test {
                field,
                value,
                met,
                unmet,
            } => {
                if field == f {
                    return self.given(next(value == x, met, unmet), f, x, depth);
                }
                let yes = self.given(met, f, x, depth)?;
                let no = self.given(unmet, f, x, depth)?;
                if yes == met && no == unmet {
                    return Ok(t);
                }
                self.test(field, value, yes, no, depth)
            }
        }
    }

    // The tree `met` where the field has the value, and else `unmet`. That is `unmet` alone if it does the same there.
    #[cycle(given_test)]
    pub(crate) fn test(
        &mut self,
        field: u8,
        value: u16,
        met: usize,
        unmet: usize,
        depth: u8,
    ) -> Result<usize, AllocError>
        requires met { met < length (nodes_of self.old) }
        requires unmet { unmet < length (nodes_of self.old) }
        ensures kept { Kept (nodes_of self.old) (nodes_of self.new) }
        ensures made { IfOk result (Tested (nodes_of self.old) (nodes_of self.new) field value met unmet) }
    {
        if depth == 0 {
            return self.keep(Node::Test {
                field,
                value,
                met,
                unmet,
            });
        }
        let yes = self.given(met, field, value, depth - 1)?;
        let there = self.given(unmet, field, value, depth - 1)?;
        if there == yes {
            return Ok(unmet);
        }
        self.keep(Node::Test {
            field,
            value,
            met: yes,
            unmet,
        })
    }

    // A tree that does what t does, with no test that can be left out.
    pub(crate) fn reduced(&mut self, t: usize) -> Result<usize, AllocError>
        requires there { t < length (nodes_of self.old) }
        ensures kept { Kept (nodes_of self.old) (nodes_of self.new) }
        ensures made { IfOk result (Like (nodes_of self.old) (nodes_of self.new) t) }
    {
        match self.node(t) {
            Node::Nothing => Ok(t),
            Node::Also { out, rest } => {
                let less = self.reduced(rest)?;
                self.insert(out, less)
            }
            Node::Test {
                field,
                value,
                met,
                unmet,
            } => {
                let yes = self.reduced(met)?;
                let no = self.reduced(unmet)?;
                self.test(field, value, yes, no, DEPTH)
            }
        }
    }
}

// How an evaluator is made and asked.
ghost use Rattle.std.specs.Prelude.{◌≡◌, IfOk};
ghost use Rattle.text.specs.declared.node.Sort.TheVariants.{Test};
ghost use Rattle.text.specs.Nodes.{fitting};
ghost use Rattle.text.specs.Texts.{nodes_of};
ghost use Rattle.meaning.specs.Answers.{HoldsAt, CopiesAt};
ghost use Rattle.meaning.specs.Evaluators.{text_of};
ghost use Rattle.meaning.specs.Memos.{Blank};

use super::Evaluator;
use crate::copies::Copies;
use crate::memo::{Kept, PLACES, ROWS};
use octets::Fault;
use packet::Packet;
use std::alloc::{AllocError, Global};
use text::{Sort, Text};

// Room for what so many nodes give, of which nothing is known yet.
fn blank(heap: Global, nodes: usize) -> Result<Vec<Kept>, AllocError>
    ensures made { IfOk result (λ v. Blank nodes v.items) }
{
    let mut kept = Vec::with_capacity(heap, nodes)?;
    for _i in 0..nodes {
        let entries = Vec::with_capacity(heap, PLACES)?;
        kept.push(Kept {
            asked: Packet::default(),
            entries,
        })?;
    }
    Ok(kept)
}

fn is_test(text: &Text, k: u16) -> bool
    ensures value { result ≡ fitting Test (nodes_of text.now) k }
{
    let Some(node) = text.nodes().get(k as usize) else {
        return false;
    };
    node.sort() == Sort::Test
}

impl Evaluator {
    // Asks for all the room: nothing after it allocates.
    pub fn new(heap: Global, text: Text) -> Result<Evaluator, AllocError>
        ensures made { IfOk result (λ e. text_of e ≡ text) }
    {
        let rows = Vec::with_capacity(heap, ROWS)?;
        let kept = blank(heap, text.nodes().len())?;
        Ok(Evaluator {
            text,
            asked: Packet::default(),
            rows,
            kept,
        })
    }

    pub fn text(&self) -> &Text
        ensures value { result.now ≡ text_of self.now }
    {
        &self.text
    }

    // Whether the packet passes test k.
    pub fn holds(&mut self, k: u16, p: Packet) -> Result<bool, Fault>
        ensures text { text_of self.new ≡ text_of self.old }
        ensures cases { HoldsAt (nodes_of (text_of self.old)) k p.fields result }
    {
        if !is_test(&self.text, k) {
            return Err(Fault::Operand);
        }
        Ok(self.passes(k, p))
    }

    // The copies that node k gives of the packet.
    pub fn copies(&mut self, k: u16, p: Packet) -> Result<Copies, Fault>
        ensures text { text_of self.new ≡ text_of self.old }
        ensures cases { CopiesAt (nodes_of (text_of self.old)) k p.fields result }
    {
        if k as usize >= self.text.nodes().len() {
            return Err(Fault::Operand);
        }
        self.asked = p;
        self.rows.clear();
        self.give(k, p)
    }
}

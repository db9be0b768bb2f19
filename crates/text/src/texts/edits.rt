// How a text is written, node by node, and read.
ghost use Rattle.std.specs.Prelude.{◌≡◌, ◌≤◌, true, [], length, IfOk};
ghost use Rattle.text.specs.Nodes.{fits, fitting, sound};
ghost use Rattle.text.specs.Texts.{nodes_of, drafted, Added, Finished};

use super::{Draft, MOST, Text};
use crate::node::{Node, Sort};
use std::alloc::{AllocError, Global};

impl Text {
    pub fn nodes(&self) -> &[Node]
        ensures value { result.now ≡ nodes_of self.now }
        ensures some { 1 ≤ length result.now }
        ensures few { length result.now ≤ 512 }
        ensures sound { sound [] result.now ≡ true }
    {
        self.nodes.as_slice()
    }
}

// Another text of the same nodes.
impl Clone for Text {
    ghost is_clone = { λ text copy. nodes_of copy ≡ nodes_of text };

    fn clone(&self) -> Result<Text, AllocError> {
        let nodes = self.nodes.clone()?;
        Ok(Text { nodes })
    }
}

impl Draft {
    // All the room that a text may want.
    #[tactic(auto, unfolding(crate::specs::Nodes::sound))]
    pub fn new(heap: Global) -> Result<Draft, AllocError>
        ensures made { IfOk result (λ d. drafted d ≡ []) }
    {
        let nodes = Vec::with_capacity(heap, MOST)?;
        Ok(Draft { nodes })
    }

    // Forgets the nodes and keeps the room.
    #[tactic(auto, unfolding(crate::specs::Nodes::sound))]
    pub fn clear(&mut self)
        ensures after { drafted self.new ≡ [] }
    {
        self.nodes.clear();
    }

    pub fn nodes(&self) -> &[Node]
        ensures value { result.now ≡ drafted self.now }
    {
        self.nodes.as_slice()
    }

    // Whether node k is there and of this sort, so that the next node may be built from it.
    pub fn has(&self, want: Sort, k: u16) -> bool
        ensures value { result ≡ fitting want (drafted self.now) k }
    {
        match self.nodes.get(usize::from(k)) {
            Some(n) => n.sort() == want,
            None => false,
        }
    }

    fn takes(&self, n: Node) -> bool
        ensures value { result ≡ fits (drafted self.now) n }
    {
        match n {
            Node::Always => true,
            Node::Is(f, _) | Node::Put(f, _) => f <= 7,
            Node::Not(a) | Node::Keep(a) => self.has(Sort::Test, a),
            Node::Both(a, b) | Node::Either(a, b) => self.has(Sort::Test, a)
                && self.has(Sort::Test, b),
            Node::And(a, b) | Node::Then(a, b) => self.has(Sort::Policy, a)
                && self.has(Sort::Policy, b),
        }
    }

    // One node more, if it fits and there are fewer than 512. Else false, and nothing changes.
    #[tactic(auto, using(crate::proofs::Sound::sound_push))]
    pub fn push(&mut self, n: Node) -> bool
        ensures cases { Added n (drafted self.old) result (drafted self.new) }
    {
        if self.nodes.len() >= MOST || !self.takes(n) {
            return false;
        }
        self.nodes.push_reserved(n);
        true
    }

    // The text, if it has a node.
    pub fn finish(self) -> Option<Text>
        ensures cases { Finished (drafted self) result }
    {
        if self.nodes.is_empty() {
            return None;
        }
        let Draft { nodes } = self;
        Some(Text { nodes })
    }
}

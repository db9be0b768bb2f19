// The copies that a node gives of a packet, by recursion on the node's number.
ghost use Rattle.std.specs.Prelude.{◌≡◌, ◌<◌, [], ◌∷◌, cond, length, IfSome};
ghost use Rattle.packet.specs.Copies.{listing};
ghost use Rattle.packet.specs.Listed.{fields_of};
ghost use Rattle.packet.specs.Policy.{keep, puts, and, then};
ghost use Rattle.text.specs.Texts.{nodes_of};
ghost use Rattle.text.specs.Trees.{trees, test_at, policy_at};
ghost use Rattle.meaning.specs.Answers.{Answered, AnsweredEach};
ghost use Rattle.meaning.specs.Evaluators.{text_of};

use super::Evaluator;
use crate::copies::Copies;
use crate::tests::node_at;
use octets::Fault;
use packet::Packet;
use text::Node;

// The packet, if it passed.
fn kept_if(passed: bool, p: Packet) -> Copies
    ensures value { listing result ≡ cond passed (p.fields ∷ []) [] }
{
    if passed {
        Copies::one(p)
    } else {
        Copies::none()
    }
}

// The packet with the field set.
#[inline(never)]
fn give_put(f: u8, x: u16, p: Packet) -> Result<Copies, Fault>
    ensures answer { Answered (puts f x) p.fields result }
{
    Ok(Copies::one(p.put(f, x)))
}

impl Evaluator {
    // What node k gave of the packet, if it was kept.
    fn recall(&self, k: u16, p: Packet) -> Option<&Copies>
        requires within { k < length (nodes_of (text_of self.now)) }
        ensures found { IfSome result (λ s. Answered (policy_at (trees (nodes_of (text_of self.now))) k) p.fields (Ok s.now)) }
    {
        let entry = self.kept[k as usize].find(self.asked, p)?;
        Some(&entry.copies)
    }

    fn remember(&mut self, k: u16, p: Packet, copies: &Copies)
        requires within { k < length (nodes_of (text_of self.old)) }
        requires right { Answered (policy_at (trees (nodes_of (text_of self.old))) k) p.fields (Ok copies.now) }
        ensures text { text_of self.new ≡ text_of self.old }
    {
        self.kept[k as usize].keep(self.asked, p, copies);
    }

    // What node k gives, which keeps a packet that passes test a. A row is made only where there is none and nothing was kept.
    // A function pays for the room of what it calls in line, so the four that want most of it are called.
    #[inline(never)]
    fn give_keep(&mut self, k: u16, a: u16, p: Packet) -> Result<Copies, Fault>
        requires within { k < length (nodes_of (text_of self.old)) }
        requires test { a < length (nodes_of (text_of self.old)) }
        requires is { let ts = trees (nodes_of (text_of self.old)) in policy_at ts k ≡ keep (test_at ts a) }
        ensures text { text_of self.new ≡ text_of self.old }
        ensures answer { Answered (policy_at (trees (nodes_of (text_of self.old))) k) p.fields result }
    {
        if let Some(passed) = self.told(a, p) {
            return Ok(kept_if(passed, p));
        }
        if let Some(copies) = self.recall(k, p) {
            return Ok(*copies);
        }
        let copies = kept_if(self.passes_anew(a, p), p);
        self.remember(k, p, &copies);
        Ok(copies)
    }

    // What node k gives.
    #[cycle(give)]
    pub(super) fn give(&mut self, k: u16, p: Packet) -> Result<Copies, Fault>
        requires within { k < length (nodes_of (text_of self.old)) }
        ensures text { text_of self.new ≡ text_of self.old }
        ensures answer { Answered (policy_at (trees (nodes_of (text_of self.old))) k) p.fields result }
    {
        match node_at(&self.text, k as usize) {
            Node::Keep(a) => self.give_keep(k, a, p),
            Node::Put(f, x) => give_put(f, x, p),
            Node::And(a, b) => self.give_and(k, a, b, p),
            Node::Then(a, b) => self.give_then(k, a, b, p),
            // A test stands for keeping it.
            Node::Always | Node::Is(_, _) | Node::Both(_, _) | Node::Either(_, _) | Node::Not(_) =>
                self.give_keep(k, k, p),
        }
    }

    #[cycle(give)]
    #[inline(never)]
    fn give_and(&mut self, k: u16, a: u16, b: u16, p: Packet) -> Result<Copies, Fault>
        requires within { k < length (nodes_of (text_of self.old)) }
        requires first { a < k }
        requires second { b < k }
        requires both { let ts = trees (nodes_of (text_of self.old)) in
            policy_at ts k ≡ and (policy_at ts a) (policy_at ts b) }
        ensures text { text_of self.new ≡ text_of self.old }
        ensures answer { Answered (policy_at (trees (nodes_of (text_of self.old))) k) p.fields result }
    {
        if let Some(copies) = self.recall(k, p) {
            return Ok(*copies);
        }
        let mut all = self.give(a, p)?;
        let more = self.give(b, p)?;
        all.join(&more)?;
        self.remember(k, p, &all);
        Ok(all)
    }

    #[cycle(give)]
    #[inline(never)]
    fn give_then(&mut self, k: u16, a: u16, b: u16, p: Packet) -> Result<Copies, Fault>
        requires within { k < length (nodes_of (text_of self.old)) }
        requires first { a < k }
        requires second { b < k }
        requires both { let ts = trees (nodes_of (text_of self.old)) in
            policy_at ts k ≡ then (policy_at ts a) (policy_at ts b) }
        ensures text { text_of self.new ≡ text_of self.old }
        ensures answer { Answered (policy_at (trees (nodes_of (text_of self.old))) k) p.fields result }
    {
        if let Some(copies) = self.recall(k, p) {
            return Ok(*copies);
        }
        let some = self.give(a, p)?;
        let all = self.give_each(b, some.as_slice())?;
        self.remember(k, p, &all);
        Ok(all)
    }

    // What node k gives of each of the packets, together.
    #[cycle(give)]
    fn give_each(&mut self, k: u16, packets: &[Packet]) -> Result<Copies, Fault>
        requires within { k < length (nodes_of (text_of self.old)) }
        ensures text { text_of self.new ≡ text_of self.old }
        ensures answer { AnsweredEach (policy_at (trees (nodes_of (text_of self.old))) k) (fields_of packets.now) result }
    {
        let mut all = Copies::none();
        for q in packets {
            let more = self.give(k, *q)?;
            all.join(&more)?;
        }
        Ok(all)
    }
}

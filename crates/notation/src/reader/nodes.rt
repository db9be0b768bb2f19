// Reading the words of one node.
ghost use Rattle.std.specs.Prelude.{◌≡◌, ◌<◌, ◌≤◌, true, List, [], length, IfOk};
ghost use Rattle.octets.specs.Faults.{number};
ghost use Rattle.text.specs.Nodes.{fits};
ghost use Rattle.text.specs.Texts.{drafted};
ghost use Rattle.notation.specs.Words.{Word, left, words_of};
ghost use Rattle.notation.specs.Reading.{up_to, and_then, ended};
ghost use Rattle.notation.specs.Operands as operands;
ghost use Rattle.notation.specs.Notation as notation;
ghost use Rattle.notation.specs.Readers.{told, sofar, grown};

use super::Reader;
use crate::kind::Kind;
use crate::number::decimal;
use crate::words::Words;
use octets::Fault;
use text::{MOST, Node, Sort};

// The next word as a number of at most `most`. A larger one is the fault that is given.
fn up_to(words: &mut Words, most: u16, fault: Fault) -> Result<u16, Fault>
    ensures value { told result (left words.new) ≡ up_to most (number fault) (left words.old) }
{
    let word = words.next().ok_or(Fault::Form)?;
    let n = decimal(word).ok_or(Fault::Form)?;
    if n > u32::from(most) {
        return Err(fault);
    }
    Ok(n as u16)
}

// A field and a value.
#[tactic(auto, unfolding(crate::specs::Notation::setting))]
fn setting(words: &mut Words) -> Result<(u8, u16), Fault>
    ensures value { told result (left words.new) ≡ notation.setting (left words.old) }
{
    let f = up_to(words, 7, Fault::Range)?;
    let x = up_to(words, 65535, Fault::Range)?;
    Ok((f as u8, x))
}

impl Reader {
    // An operand that is written.
    fn written(&self, want: Sort, words: &mut Words) -> Result<u16, Fault>
        ensures value { told result (left words.new) ≡ operands.written want (sofar self.now) (left words.old) }
    {
        let k = up_to(words, u16::MAX, Fault::Operand)?;
        if !self.draft.has(want, k) {
            return Err(Fault::Operand);
        }
        Ok(k)
    }

    // An operand that is left out: the latest before node n that no node has used.
    #[tactic(auto, using(crate::proofs::Flags::latest_below))]
    fn left_out(&self, want: Sort, n: usize) -> Result<u16, Fault>
        requires { n ≤ 512 }
        ensures value { (ws : List Word) → told result ws ≡ operands.left_out want (sofar self.now) n ws }
        ensures small { IfOk result (λ k. k < n) }
    {
        let latest = self.used.latest(n).ok_or(Fault::Operand)?;
        if !self.draft.has(want, latest) {
            return Err(Fault::Operand);
        }
        Ok(latest)
    }

    // One operand: left out where no word follows, else written.
    #[tactic(auto, unfolding(crate::specs::Operands::one))]
    fn one(&self, want: Sort, words: &mut Words) -> Result<u16, Fault>
        ensures value { told result (left words.new) ≡ operands.one want (sofar self.now) (left words.old) }
    {
        if words.is_done() {
            self.left_out(want, self.draft.nodes().len())
        } else {
            self.written(want, words)
        }
    }

    // Two operands, likewise.
    #[tactic(auto, unfolding(crate::specs::Operands::two))]
    fn two(&self, want: Sort, words: &mut Words) -> Result<(u16, u16), Fault>
        ensures value { told result (left words.new) ≡ operands.two want (sofar self.now) (left words.old) }
    {
        if words.is_done() {
            let last = self.left_out(want, self.draft.nodes().len())?;
            let first = self.left_out(want, usize::from(last))?;
            Ok((first, last))
        } else {
            let a = self.written(want, words)?;
            let b = self.written(want, words)?;
            Ok((a, b))
        }
    }

    // The words behind the first one of a node.
    fn node(&self, kind: Kind, words: &mut Words) -> Result<Node, Fault>
        ensures value { told result (left words.new) ≡ notation.of_kind kind (sofar self.now) (left words.old) }
    {
        Ok(match kind {
            Kind::Always => Node::Always,
            Kind::Is => {
                let (f, x) = setting(words)?;
                Node::Is(f, x)
            }
            Kind::Both => {
                let (a, b) = self.two(Sort::Test, words)?;
                Node::Both(a, b)
            }
            Kind::Either => {
                let (a, b) = self.two(Sort::Test, words)?;
                Node::Either(a, b)
            }
            Kind::Not => Node::Not(self.one(Sort::Test, words)?),
            Kind::Keep => Node::Keep(self.one(Sort::Test, words)?),
            Kind::Put => {
                let (f, x) = setting(words)?;
                Node::Put(f, x)
            }
            Kind::And => {
                let (a, b) = self.two(Sort::Policy, words)?;
                Node::And(a, b)
            }
            Kind::Then => {
                let (a, b) = self.two(Sort::Policy, words)?;
                Node::Then(a, b)
            }
        })
    }

    // All the words behind the first one of a node.
    #[tactic(auto, using(crate::proofs::Fitting::node_fits))]
    fn whole(&self, kind: Kind, words: &mut Words) -> Result<Node, Fault>
        ensures value { told result [] ≡ and_then (notation.of_kind kind (sofar self.now) (left words.old)) ended }
        ensures fits { IfOk result (λ n. fits (drafted self.now.draft) n ≡ true) }
    {
        let node = self.node(kind, words)?;
        if !words.is_done() {
            return Err(Fault::Form);
        }
        Ok(node)
    }

    // One node more, which was tested and so is taken.
    fn add(&mut self, node: Node)
        requires few { length (drafted self.old.draft) < 512 }
        requires fits { fits (drafted self.old.draft) node ≡ true }
        ensures after { sofar self.new ≡ operands.added (sofar self.old) node }
    {
        let _ = self.draft.push(node);
        self.used.mark_operands(node);
    }

    // The words between two marks: a node, or none.
    pub fn piece(&mut self, bytes: &[u8]) -> Result<(), Fault>
        ensures value { grown result self.new ≡ notation.node_in (sofar self.old) (words_of bytes.now) }
    {
        let mut words = Words::new(bytes);
        let Some(word) = words.next() else {
            return Ok(());
        };
        let kind = Kind::try_from(word)?;
        if self.draft.nodes().len() >= MOST {
            return Err(Fault::Range);
        }
        let node = self.whole(kind, &mut words)?;
        self.add(node);
        Ok(())
    }
}

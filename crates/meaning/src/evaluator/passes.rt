// Whether a packet passes a test, by its row.
ghost use Rattle.std.specs.Prelude.{◌≡◌, ◌<◌, length, IfSome};
ghost use Rattle.packet.specs.Policy.{holds};
ghost use Rattle.text.specs.Texts.{nodes_of};
ghost use Rattle.text.specs.Trees.{trees, test_at};
ghost use Rattle.meaning.specs.Evaluators.{text_of};

use super::Evaluator;
use crate::memo::known_test;
use crate::tests::row_of;
use packet::Packet;

impl Evaluator {
    // What the packet's row tells, if it has one.
    pub(super) fn told(&self, a: u16, p: Packet) -> Option<bool>
        requires within { a < length (nodes_of (text_of self.now)) }
        ensures value { IfSome result (λ b. b ≡ holds (test_at (trees (nodes_of (text_of self.now))) a) p.fields) }
    {
        known_test(&self.rows, a as usize, p)
    }

    // The row is made where there is none.
    pub(super) fn passes(&mut self, a: u16, p: Packet) -> bool
        requires within { a < length (nodes_of (text_of self.old)) }
        ensures text { text_of self.new ≡ text_of self.old }
        ensures value { result ≡ holds (test_at (trees (nodes_of (text_of self.old))) a) p.fields }
    {
        if let Some(passed) = self.told(a, p) {
            return passed;
        }
        self.passes_anew(a, p)
    }

    // The row is made, and the others are forgotten where there is no room for it.
    pub(super) fn passes_anew(&mut self, a: u16, p: Packet) -> bool
        requires within { a < length (nodes_of (text_of self.old)) }
        ensures text { text_of self.new ≡ text_of self.old }
        ensures value { result ≡ holds (test_at (trees (nodes_of (text_of self.old))) a) p.fields }
    {
        let row = row_of(&self.text, p);
        if self.rows.len() >= self.rows.capacity() {
            self.rows.clear();
        }
        self.rows.push_reserved(row);
        row.tests[a as usize]
    }
}

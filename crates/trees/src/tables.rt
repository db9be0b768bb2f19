// The tree of a table.
ghost use Rattle.std.specs.Prelude.{◌≡◌, ◌<◌, ◌≤◌, length, IfOk, if◌then◌else◌, ◌≢◌};
ghost use Rattle.packet.specs.Packet as model;
ghost use Rattle.packet.specs.Packet.{field};
ghost use Rattle.packet.specs.Table.{meets_all, set_all, outputs, decided};
ghost use Rattle.table.specs.Views.{wants_in, settings_in, outs_in, rules_in};
ghost use Rattle.trees.specs.Outs.{applied};
ghost use Rattle.trees.specs.Trees.{copies_by};
ghost use Rattle.trees.specs.Nodes.{tree_at, Kept};
ghost use Rattle.trees.specs.Stores.{nodes_of, Gives, Sends};

use crate::given::next;
use crate::node::Node;
use crate::out::Out;
use crate::store::Trees;
use std::alloc::AllocError;
use table::{Outs, Pairs, Rules, Table};

// The out with these settings.
#[tactic(auto, unfolding(packet::specs::Table::set_all))]
fn out_of(settings: Pairs<'_>) -> Out
    ensures value { (p : model.Packet) → length p ≡ 8 → applied result.sets p ≡ set_all (settings_in settings.entry) p }
{
    let mut out = Out::same();
    for s in settings {
        out = out.with(s.field, s.value);
    }
    out
}

impl Trees {
    // Outs, one after the other.
    fn outs(&mut self, mut outs: Outs<'_>) -> Result<usize, AllocError>
        ensures kept { Kept (nodes_of self.old) (nodes_of self.new) }
        ensures made { IfOk result (λ k. Gives (nodes_of self.new) k (outputs (outs_in outs.entry))) }
    {
        let Some(settings) = outs.next() else {
            return self.keep(Node::Nothing);
        };
        let out = out_of(settings);
        let rest = self.outs(outs)?;
        self.keep(Node::Also { out, rest })
    }

    // What t does where the field has the value, as far as the tests in front tell.
    fn past(&self, t: usize, f: u8, x: u16) -> usize
        ensures low { result ≤ t }
        ensures same { (p : model.Packet) → field f p ≡ x → copies_by (tree_at (nodes_of self.now) result) p ≡ copies_by (tree_at (nodes_of self.now) t) p }
    {
        if let Node::Test {
            field,
            value,
            met,
            unmet,
        } = self.node(t)
        {
            if field == f {
                return self.past(next(value == x, met, unmet), f, x);
            }
        }
        t
    }

    // What t does where the field has not the value.
    fn beside(&self, t: usize, f: u8, x: u16) -> usize
        ensures low { result ≤ t }
        ensures same { (p : model.Packet) → (field f p ≢ x) → copies_by (tree_at (nodes_of self.now) result) p ≡ copies_by (tree_at (nodes_of self.now) t) p }
    {
        if let Node::Test {
            field,
            value,
            unmet,
            ..
        } = self.node(t)
        {
            if field == f && value == x {
                return unmet;
            }
        }
        t
    }

    // The tree `met` where a packet meets the wants, and else `unmet`.
    fn wanted(
        &mut self,
        mut wants: Pairs<'_>,
        met: usize,
        unmet: usize,
    ) -> Result<usize, AllocError>
        requires met { met < length (nodes_of self.old) }
        requires unmet { unmet < length (nodes_of self.old) }
        ensures kept { Kept (nodes_of self.old) (nodes_of self.new) }
        ensures made { IfOk result (λ k. Gives (nodes_of self.new) k
            (λ p. (if meets_all (wants_in wants.entry) p then copies_by (tree_at (nodes_of self.old) met) p else copies_by (tree_at (nodes_of self.old) unmet) p))) }
    {
        let Some(want) = wants.next() else {
            return Ok(met);
        };
        let there = self.past(unmet, want.field, want.value);
        let other = self.beside(unmet, want.field, want.value);
        let inner = self.wanted(wants, met, there)?;
        self.keep(Node::Test {
            field: want.field,
            value: want.value,
            met: inner,
            unmet: other,
        })
    }

    // Rules, one after the other.
    fn rules(&mut self, mut rules: Rules<'_>) -> Result<usize, AllocError>
        ensures kept { Kept (nodes_of self.old) (nodes_of self.new) }
        ensures made { IfOk result (λ k. Gives (nodes_of self.new) k (λ p. outputs (decided (rules_in rules.entry.left) p) p)) }
    {
        let Some(rule) = rules.next() else {
            return self.keep(Node::Nothing);
        };
        let rest = self.rules(rules)?;
        let met = self.outs(rule.outs)?;
        self.wanted(rule.wants, met, rest)
    }

    // The tree of a table.
    pub fn add(&mut self, table: Table<'_>) -> Result<usize, AllocError>
        ensures kept { Kept (nodes_of self.old) (nodes_of self.new) }
        ensures made { IfOk result (Sends (nodes_of self.new) (rules_in table.entry)) }
    {
        let whole = self.rules(table.rules())?;
        self.reduced(whole)
    }
}

// A text's part, and what it has.
ghost use Rattle.std.specs.Prelude.{◌≡◌, true, MatchResult};
ghost use Rattle.text.specs.Texts.{nodes_of};
ghost use Rattle.text.specs.Trees.{meaning};
ghost use Rattle.table.specs.Views as tables;
ghost use Rattle.plan.specs.Values.{all_small, small};
ghost use Rattle.plan.specs.Parts.{text_in, rules_in, Unmade};

use super::{Part, Scratch};
use octets::Fault;
use table::Table;
use text::{Node, Text};

// The value of a node that has one.
fn value(n: Node) -> u16
    ensures small { small n ≡ true }
{
    match n {
        Node::Put(_, x) => x,
        _ => 0,
    }
}

// Every value has 16 bits. There is nothing to test: each node is only looked at.
fn look(nodes: &[Node])
    ensures small { all_small nodes.now ≡ true }
{
    for n in nodes {
        let _ = value(*n);
    }
}

impl Part {
    // The text with its table.
    pub(crate) fn new(scratch: &mut Scratch, text: Text) -> Result<Part, Fault>
        ensures cases { MatchResult result (λ p. text_in p ≡ nodes_of text) (Unmade (meaning (nodes_of text))) }
    {
        look(text.nodes());
        let words = scratch.make(&text)?;
        Ok(Part { text, words })
    }

    pub fn text(&self) -> &Text
        ensures value { nodes_of result.now ≡ text_in self.now }
    {
        &self.text
    }

    pub fn table(&self) -> Table<'_>
        ensures value { tables.rules_in result ≡ rules_in self.now }
    {
        Table::of(self.words.as_slice())
    }
}

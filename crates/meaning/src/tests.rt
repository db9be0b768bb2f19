// Tests: a row for a packet, filled from the first node to the last, tells which ones it passes.
ghost use Rattle.std.specs.Prelude.{◌≡◌, ◌<◌, ◌≤◌, length};
ghost use Rattle.packet.specs.Policy.{holds};
ghost use Rattle.text.specs.Texts.{nodes_of};
ghost use Rattle.text.specs.Trees.{trees, test_at};
ghost use Rattle.meaning.specs.Kept.{Stands, Says, RowRight};

use crate::memo::Row;
use packet::Packet;
use text::{Node, Text};

pub fn node_at(text: &Text, k: usize) -> Node
    requires within { k < length (nodes_of text.now) }
    ensures stands { Stands (nodes_of text.now) k result }
{
    text.nodes()[k]
}

// Whether the packet passes node k, where the row tells it of the earlier nodes.
fn tells(text: &Text, k: usize, p: Packet, row: &[bool]) -> bool
    requires within { k < length (nodes_of text.now) }
    requires room { k ≤ length row.now }
    requires says { Says (nodes_of text.now) k p.fields row.now }
    ensures value { result ≡ holds (test_at (trees (nodes_of text.now)) k) p.fields }
{
    match node_at(text, k) {
        Node::Always => true,
        Node::Is(f, x) => p.field(f) == x,
        Node::Both(a, b) => row[a as usize] && row[b as usize],
        Node::Either(a, b) => row[a as usize] || row[b as usize],
        Node::Not(a) => !row[a as usize],
        Node::Keep(_) | Node::Put(_, _) | Node::And(_, _) | Node::Then(_, _) => false,
    }
}

pub fn row_of(text: &Text, p: Packet) -> Row
    ensures packet { result.packet ≡ p }
    ensures right { RowRight (nodes_of text.now) result }
{
    let mut tests = [false; 512];
    for k in 0..text.nodes().len() {
        tests[k] = tells(text, k, p, &tests);
    }
    Row { packet: p, tests }
}

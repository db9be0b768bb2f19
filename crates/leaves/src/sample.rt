// A packet whose fields have values that the text names nowhere.
ghost use Rattle.std.specs.Prelude.{◌≡◌, ◌≤◌, length};
ghost use Rattle.text.specs.Texts.{nodes_of};
ghost use Rattle.text.specs.Trees.{meaning};
ghost use Rattle.prescribed.specs.Table as prescribed;
ghost use Rattle.leaves.specs.Under.{marked, name_of};

use crate::marks::under;
use packet::Packet;
use std::array;
use text::{Node, Text};

// Whether the node itself tests the field f for x, or puts x there.
fn has(n: Node, f: u8, x: u16) -> bool
    ensures value { result ≡ prescribed.names f x (name_of n) }
{
    match n {
        Node::Is(g, y) | Node::Put(g, y) => g == f && y == x,
        _ => false,
    }
}

// Whether a marked node does.
fn names(nodes: &[Node], row: &[bool], f: u8, x: u16) -> bool
    requires room { length nodes.now ≤ length row.now }
    ensures value { result ≡ prescribed.names f x (marked name_of row.now nodes.now) }
{
    nodes
        .iter()
        .zip(row)
        .any(|(n, marked)| *marked && has(*n, f, x))
}

// The smallest value of the field f that no marked node names.
fn free(nodes: &[Node], row: &[bool], f: u8) -> u16
    requires few { length nodes.now ≤ 512 }
    requires room { length nodes.now ≤ length row.now }
    ensures value { result ≡ prescribed.free f (marked name_of row.now nodes.now) }
{
    let values = nodes.len() as u16 + 1;
    (0..values).find(|x| !names(nodes, row, f, *x)).unwrap_or(0)
}

pub fn unnamed(text: &Text) -> Packet
    ensures value { result.fields ≡ prescribed.unnamed (meaning (nodes_of text.now)) }
{
    let row = under(text);
    let nodes = text.nodes();
    Packet {
        fields: array::from_fn(|f| free(nodes, &row, f as u8)),
    }
}

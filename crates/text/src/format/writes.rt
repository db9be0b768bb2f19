// Writing a text as bytes.
ghost use Rattle.std.specs.Prelude.{◌≡◌, ◌+◌, ◌*◌, ◌≤◌, ◌++◌, length, vec_len, vec_capacity, MatchResult};
ghost use Rattle.std.specs.List.{flat_map};
ghost use Rattle.text.specs.Format as spec;
ghost use Rattle.text.specs.Laws as laws;
ghost use Rattle.text.specs.Texts.{nodes_of};

use crate::node::Node;
use crate::texts::Text;
use std::alloc::AllocError;

fn valued(out: &mut Vec<u8>, kind: u8, f: u8, x: u16)
    requires room { vec_len out.old + 4 ≤ vec_capacity out.old }
    ensures items { out.new.items ≡ out.old.items ++ spec.valued_bytes kind f x }
    ensures len { vec_len out.new ≡ vec_len out.old + 4 }
    ensures capacity { vec_capacity out.old ≤ vec_capacity out.new }
{
    let [high, low] = x.to_be_bytes();
    out.extend_from_slice(&[kind, f, high, low]).unwrap();
}

fn unary(out: &mut Vec<u8>, kind: u8, a: u16)
    requires room { vec_len out.old + 3 ≤ vec_capacity out.old }
    ensures items { out.new.items ≡ out.old.items ++ spec.unary_bytes kind a }
    ensures len { vec_len out.new ≡ vec_len out.old + 3 }
    ensures capacity { vec_capacity out.old ≤ vec_capacity out.new }
{
    let [high, low] = a.to_be_bytes();
    out.extend_from_slice(&[kind, high, low]).unwrap();
}

fn binary(out: &mut Vec<u8>, kind: u8, a: u16, b: u16)
    requires room { vec_len out.old + 5 ≤ vec_capacity out.old }
    ensures items { out.new.items ≡ out.old.items ++ spec.binary_bytes kind a b }
    ensures len { vec_len out.new ≡ vec_len out.old + 5 }
    ensures capacity { vec_capacity out.old ≤ vec_capacity out.new }
{
    let [a_high, a_low] = a.to_be_bytes();
    let [b_high, b_low] = b.to_be_bytes();
    out.extend_from_slice(&[kind, a_high, a_low, b_high, b_low])
        .unwrap();
}

// Appends the bytes of a node, for which there is room.
fn append_node(out: &mut Vec<u8>, n: Node)
    requires room { vec_len out.old + 5 ≤ vec_capacity out.old }
    ensures items { out.new.items ≡ out.old.items ++ spec.node_bytes n }
    ensures len { vec_len out.new ≤ vec_len out.old + 5 }
    ensures capacity { vec_capacity out.old ≤ vec_capacity out.new }
{
    match n {
        Node::Always => out.push(1).unwrap(),
        Node::Is(f, x) => valued(out, 2, f, x),
        Node::Both(a, b) => binary(out, 3, a, b),
        Node::Either(a, b) => binary(out, 4, a, b),
        Node::Not(a) => unary(out, 5, a),
        Node::Keep(a) => unary(out, 6, a),
        Node::Put(f, x) => valued(out, 7, f, x),
        Node::And(a, b) => binary(out, 8, a, b),
        Node::Then(a, b) => binary(out, 9, a, b),
    }
}

fn append_nodes(out: &mut Vec<u8>, nodes: &[Node])
    requires room { vec_len out.old + 5 * length nodes.now ≤ vec_capacity out.old }
    ensures items { out.new.items ≡ out.old.items ++ flat_map spec.node_bytes nodes.now }
{
    for n in nodes {
        append_node(out, *n);
    }
}

// Puts the text's bytes behind what is there, or changes nothing where no memory is left.
pub fn write(out: &mut Vec<u8>, switch: u8, text: &Text) -> Result<(), AllocError>
    ensures cases { MatchResult result
        (λ _. out.new.items ≡ out.old.items ++ spec.text_bytes switch (nodes_of text.now))
        (λ _. out.new.items ≡ out.old.items) }
{
    let nodes = text.nodes();
    let count = nodes.len();
    out.reserve(3 + 5 * count)?;
    let [high, low] = (count as u16).to_be_bytes();
    out.extend_from_slice(&[switch, high, low]).unwrap();
    append_nodes(out, nodes);
    Ok(())
}

// What reading and writing have to do with each other.
pub fn format_stands()
    ensures reads_back { laws.ReadsBack }
    ensures writes_back { laws.WritesBack }
    ensures no_front { laws.NoFront }
{}

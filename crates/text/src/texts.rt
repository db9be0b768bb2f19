// A text, and a text that is being written. What holds of every text stands in its type.
ghost use Rattle.std.specs.Prelude.{◌≡◌, ◌≤◌, true, [], vec_len, vec_capacity};
ghost use Rattle.text.specs.Nodes.{sound};

use crate::node::Node;

mod edits;

// The most nodes of a text.
pub const MOST: usize = 512;

// 1 to 512 nodes, each built from earlier ones of the right sort. The last is the text's meaning.
#[derive(Drop)]
pub struct Text {
    nodes: Vec<Node>,
    ghost some: { 1 ≤ vec_len nodes },
    ghost few: { vec_len nodes ≤ 512 },
    ghost sound: { sound [] nodes.items ≡ true },
}

// The nodes so far, perhaps none, with room for 512.
#[derive(Drop)]
pub struct Draft {
    nodes: Vec<Node>,
    ghost room: { 512 ≤ vec_capacity nodes },
    ghost few: { vec_len nodes ≤ 512 },
    ghost sound: { sound [] nodes.items ≡ true },
}

// A text with the switch that it is for.
#[derive(Drop)]
pub struct Assigned {
    pub switch: u8,
    pub text: Text,
}

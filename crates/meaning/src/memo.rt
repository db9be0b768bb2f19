// What was worked out before. It may be forgotten; what is kept is right for the text that it is used with.
ghost use Rattle.std.specs.Prelude.{◌≡◌, ◌≤◌, vec_len, vec_capacity};

use crate::copies::Copies;
use packet::Packet;

mod calls;

pub use calls::known_test;

// How many packets have a row.
pub const ROWS: usize = 32;

// How many packets a node remembers its copies of.
pub const PLACES: usize = 64;

// Which nodes are tests that the packet passes.
#[derive(Clone, Copy)]
pub struct Row {
    pub packet: Packet,
    pub tests: [bool; 512],
}

// The copies of a packet.
#[derive(Clone, Copy)]
pub struct Entry {
    pub packet: Packet,
    pub copies: Copies,
}

// What a node gave, for the packet that was asked about then.
#[derive(Drop)]
pub struct Kept {
    pub asked: Packet,
    pub entries: Vec<Entry>,
    ghost room: { vec_capacity entries ≡ 64 },
    ghost few: { vec_len entries ≤ 64 },
}

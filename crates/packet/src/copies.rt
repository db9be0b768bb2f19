// The copies of a packet: a set, in the order in which its packets came up.
ghost use Rattle.std.specs.Prelude.{◌≡◌, ◌≤◌, take};
ghost use Rattle.packet.specs.Packet.{once};
ghost use Rattle.packet.specs.Listed.{fields_of};

use crate::packets::Packet;

mod sets;

// So many packets at most, none of them twice. They lie in the first places.
#[derive(Clone, Copy)]
pub struct Copies<const MOST: usize> {
    packets: [Packet; MOST],
    count: usize,
    ghost few: { count ≤ MOST },
    ghost apart: { once (fields_of (take count packets)) ≡ fields_of (take count packets) },
}

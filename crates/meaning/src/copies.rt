// The copies of a packet: a set, in the order in which its packets came up.

// The most copies of one packet.
const MOST: usize = 16;

pub type Copies = packet::Copies<MOST>;

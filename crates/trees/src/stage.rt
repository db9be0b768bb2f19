// How far a search has come.
use packet::Packet;

// Two trees, for the packets whose fields below `field` are those of `packet`.
#[derive(Clone, Copy)]
pub struct Stage {
    pub first: usize,
    pub second: usize,
    pub field: u8,
    pub packet: Packet,
}

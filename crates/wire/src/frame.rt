// Frames: packets on their way, each with the version that it goes by and the cables that it went over.
use packet::Packet;

mod reads;
mod writes;

pub use reads::{read_cable, read_outside};
pub use writes::write;

#[derive(Clone, Copy, Debug, PartialEq, Eq)]
pub struct Frame {
    pub version: u16,
    pub hops: u8,
    pub packet: Packet,
}

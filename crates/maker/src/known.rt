// What is known of a packet on the way to a leaf: some fields have these values, and a packet that has them.
use arrayvec::ArrayVec;
use packet::{Packet, Pair};

mod calls;

#[derive(Drop)]
pub struct Known {
    wants: ArrayVec<Pair, 8>,
    sample: Packet,
}

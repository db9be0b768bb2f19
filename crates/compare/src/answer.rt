// What is answered of two texts.
use packet::Packet;

// The smallest packet whose copies differ, and what each text makes of it, in rising order.
#[derive(Drop)]
pub struct Difference {
    pub packet: Packet,
    pub first: Vec<Packet>,
    pub second: Vec<Packet>,
}

// Packets, pairs of a field and a value, and sets of copies, by value. What policies and tables do with packets is defined in specs/.
#![tactic(auto)]

pub mod copies;
pub mod packets;
pub mod pair;

pub use copies::Copies;
pub use packets::Packet;
pub use pair::Pair;

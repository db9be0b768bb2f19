// The bytes that go over wires, and what the wires are: orders and answers, marks, frames, and lists of cables.
#![tactic(auto)]

mod board;
pub mod cables;
mod coded;
pub mod frame;
pub mod laws;
pub mod list;
pub mod mark;
mod net;
pub mod order;

pub use board::{Board, Wire};
pub use cables::Cables;
pub use frame::Frame;
pub use mark::Mark;
pub use net::Net;
pub use order::{Kind, Letter, Message, Order};

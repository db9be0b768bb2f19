// What the leaves of a text's table are made of: the pairs that are asked for, a packet that the text names nowhere, and
// the settings of a packet's copies.
#![tactic(auto)]

mod marks;
pub mod outs;
pub mod pairs;
mod sample;

pub use outs::{Out, Outs};
pub use pairs::Pairs;
pub use sample::unnamed;

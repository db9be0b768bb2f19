// Tables: rules in words, of which the first whose wants a packet meets decides.
#![tactic(auto)]

mod lines;
mod matching;
pub mod outs;
pub mod pairs;
pub mod rules;
mod sound;
pub mod tables;
mod writes;

pub use outs::Outs;
pub use pairs::Pairs;
pub use rules::{Rule, Rules};
pub use sound::is_table;
pub use tables::{Table, layout_stands};

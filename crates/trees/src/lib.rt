// Trees: sets of outs over the eight fields, each kept once in a store.
#![tactic(auto)]

mod agree;
mod given;
pub mod node;
pub mod out;
mod search;
mod sets;
mod stage;
pub mod store;
mod tables;

pub use out::Out;
pub use store::Trees;

// What the nodes of a text say of a packet: whether it passes a test, and which copies a policy gives of it.
#![tactic(auto)]

pub mod copies;
pub mod evaluator;
mod memo;
mod tests;

pub use copies::Copies;
pub use evaluator::Evaluator;

// Two texts compared.
#![tactic(auto)]

pub mod answer;
mod sets;
mod tables;
mod texts;

pub use answer::Difference;
pub use texts::compare;

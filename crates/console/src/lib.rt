// What the programs share: their arguments, how a text is read, the lines in which they refuse something, and how they end.
#![tactic(auto)]

pub mod arguments;
pub mod ending;
pub mod input;
pub mod refusal;

pub use arguments::Asked;
pub use input::Writing;

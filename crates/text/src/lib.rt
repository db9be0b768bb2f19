// Texts: a policy written as a list of nodes, each built from earlier ones.
#![tactic(auto)]

pub mod format;
pub mod node;
pub mod texts;

pub use node::{Node, Sort};
pub use texts::{Assigned, Draft, MOST, Text};

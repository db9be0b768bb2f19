// Plans: a text and its table for each switch.
#![tactic(auto)]

pub mod builder;
pub mod change;
pub mod part;
pub mod plans;

pub use builder::Builder;
pub use part::Part;
pub use plans::Plan;

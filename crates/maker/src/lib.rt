// The maker of tables.
#![tactic(auto)]

mod compare;
mod end;
mod join;
mod known;
mod leaf;
pub mod maker;
mod making;
mod size;

pub use maker::{Maker, NoTable};

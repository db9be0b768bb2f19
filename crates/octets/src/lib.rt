// Reading and writing bytes, and the faults that readers find.
#![tactic(auto)]

pub mod cursor;
pub mod fault;

pub use cursor::Cursor;
pub use fault::Fault;

// The words of a rehearsal: the lines of a script, and the lines that are printed of what happens.
#![tactic(auto)]

pub mod event;
pub mod header;
mod laws;
pub mod line;
mod numbers;
pub mod step;

pub use event::{Event, Held, Stage};
pub use header::{Header, Placed};
pub use laws::examples_stand;
pub use line::{Line, TextLine};
pub use step::{Named, Step};

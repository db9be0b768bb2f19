// A switch: its state is small and goes by value; its tables lie in memory that it is lent, a place for each version that it can hold at once.
#![tactic(auto)]

pub mod marks;
pub mod steps;
pub mod versions;

pub use marks::{Marks, PORTS};
pub use steps::Installed;
pub use versions::{Full, SLOTS, Versions};
pub use wire::Mark;

// stamp: the version of what comes in from outside. floor: no version below it is taken in.
#[derive(Clone, Copy)]
pub struct Switch {
    stamp: u16,
    floor: u16,
    versions: Versions,
    marks: Marks,
}

// The desk: it leads the switches from one version to the next, stage by stage. Its state is small and goes by value.
#![tactic(auto)]

mod answers;
mod steps;

// An order, or the answer to it; the table of an install goes beside it.
pub use wire::Order;

// The switches that a desk can lead.
pub const SWITCHES: usize = 24;

#[derive(Clone, Copy, Debug, PartialEq, Eq)]
pub enum Stage {
    Idle,
    Installing,
    Stamping,
    Flushing(u8),
    Removing,
}

// A change leads from version `from` to version `to`; between changes the two are the same. `seen`: the switches that have answered in this stage.
#[derive(Clone, Copy)]
pub struct Desk {
    from: u16,
    to: u16,
    stage: Stage,
    seen: [bool; SWITCHES],
}

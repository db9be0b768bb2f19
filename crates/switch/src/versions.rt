// The versions whose tables a switch holds, in the order in which they came, and the place in which each table lies.
ghost use Rattle.std.specs.Prelude.{◌≡◌, true};
ghost use Rattle.switch.specs.Holding.{held_in, placed};

mod calls;

// The versions that a switch can hold at once.
pub const SLOTS: usize = 2;

// A version, and the place in which its table lies.
#[derive(Clone, Copy)]
pub struct Held {
    pub version: u16,
    pub place: usize,
}

#[derive(Clone, Copy)]
pub struct Versions {
    held: [Option<Held>; SLOTS],
    ghost places: { placed (held_in held) ≡ true },
}

// Versions with a new one among them, and the place that its table goes into.
#[derive(Clone, Copy)]
pub struct TakenIn {
    pub versions: Versions,
    pub place: usize,
}

// All places are in use.
#[derive(Clone, Copy, Debug, PartialEq, Eq)]
pub struct Full;

// The settings of the copies of a packet, by value.
ghost use Rattle.std.specs.Prelude.{◌≡◌, ◌≤◌, length};
ghost use Rattle.std.specs.List.{AllWithin};

use packet::Pair;

mod calls;

// At most 8 settings: those of one copy. Outs are ordered by their settings, the first one first: zeros stand behind them,
// and no pair comes before a zero.
#[derive(Clone, Copy, Debug, PartialEq, Eq, PartialOrd, Ord)]
pub struct Out {
    settings: [Pair; 8],
    count: usize,
    ghost long: { length settings ≡ 8 },
    ghost within: { count ≤ 8 },
    ghost rest: { AllWithin (λ p. p ≡ record { field = 0; value = 0 }) settings count (length settings) },
}

// At most 16 outs.
#[derive(Clone, Copy)]
pub struct Outs {
    outs: [Out; 16],
    count: usize,
    ghost long: { length outs ≡ 16 },
    ghost within: { count ≤ 16 },
}

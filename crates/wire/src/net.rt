// A net: its switches, their ports, and what hangs on each.
ghost use Rattle.std.specs.Prelude.{◌≤◌};

use crate::board::Board;

mod ports;

// So many switches with so many ports each.
#[derive(Clone, Copy)]
pub struct Net {
    switches: u8,
    ports: u8,
    board: Board,
    ghost few: { switches ≤ 24 },
    ghost narrow: { ports ≤ 32 },
}

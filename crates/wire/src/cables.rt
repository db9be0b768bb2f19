// The cables of a net: the switches, their ports, and what hangs on each.
ghost use Rattle.std.specs.Prelude.{◌≤◌};
ghost use Rattle.wire.specs.Nets.{wires_in};
ghost use Rattle.wire.specs.Wires.{There, Back, Ends, Apart};

use crate::net::Net;

mod reads;
mod views;

pub use reads::read;

// 1 to 24 switches with 1 to 32 ports each, and how many cables a packet may go over.
#[derive(Drop)]
pub struct Cables {
    net: Net,
    hops: u8,
    ghost some: { 1 ≤ net.switches },
    ghost wide: { 1 ≤ net.ports },
    ghost near: { hops ≤ 16 },
    ghost there: { There net.switches net.ports (wires_in net) },
    ghost back: { Back (wires_in net) },
    ghost ends: { Ends net.switches net.ports (wires_in net) },
    ghost apart: { Apart (wires_in net) },
}

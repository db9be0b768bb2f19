// A net as the lines of a header describe it, line by line.
ghost use Rattle.std.specs.Prelude.{vec_items};
ghost use Rattle.wire.specs.Nets.{wires_in};
ghost use Rattle.script.specs.Headers.{Kept};
ghost use Rattle.script.specs.Keeping.{kept_prop};

use wire::Net;
use wire::list::{Cable, End};

mod lines;

// The cables and outside ports are those of a net, and they give what hangs on its ports.
#[derive(Drop)]
pub(crate) struct Description {
    net: Net,
    hops: u8,
    cables: Vec<Cable>,
    ends: Vec<End>,
    ghost kept: { Kept net.switches net.ports hops (vec_items cables) (vec_items ends) (wires_in net) } by { kept_prop net.switches net.ports hops (vec_items cables) (vec_items ends) (wires_in net) },
}

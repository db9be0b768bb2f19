// Sets of packets in rising order.
ghost use Rattle.std.specs.Prelude.{IfOk};
ghost use Rattle.packet.specs.Listed.{fields_of};
ghost use Rattle.compare.specs.Sets.{Listed, Eight};

use packet::Packet;
use std::alloc::{AllocError, Global};

// The packets, each once and smaller ones first.
pub fn listed(heap: Global, packets: &[Packet]) -> Result<Vec<Packet>, AllocError>
    requires eight { Eight (fields_of packets.now) }
    ensures made { IfOk result (λ v. Listed (fields_of v.items) (fields_of packets.now)) }
{
    let mut set = packets.to_vec(heap)?;
    set.sort_unstable_by(|p, q| p.cmp(q));
    set.dedup();
    Ok(set)
}

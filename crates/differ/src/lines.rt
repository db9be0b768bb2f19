// The printed lines.
ghost use Rattle.std.specs.Prelude.{◌≡◌, ◌++◌, Some, IfOk, string_bytes, OnOk};
ghost use Rattle.packet.specs.Listed.{fields_of};
ghost use Rattle.differ.specs.Lines.{packet_text, set_text, difference_text};

use compare::Difference;
use packet::Packet;
use std::alloc::{AllocError, Global};
use std::fmt;

// A packet, printed as its fields with blanks between them.
#[derive(Clone, Copy)]
struct Spaced(Packet);

impl fmt::Display for Spaced {
    ghost output = { λ p. Some (packet_text p.0.fields) };

    fn fmt<W: fmt::Write>(&self, f: &mut fmt::Formatter<W>) -> fmt::Result {
        let [a, b, c, d, e, g, h, i] = self.0.fields;
        write!(f, "{a} {b} {c} {d} {e} {g} {h} {i}")
    }
}

// The packets with bars between them.
fn set(text: &mut String, packets: &[Packet]) -> Result<(), AllocError>
    ensures made { OnOk result (string_bytes text.new ≡ string_bytes text.old ++ set_text (fields_of packets.now)) }
{
    let Some((first, rest)) = packets.split_first() else {
        return text.push_str("none");
    };
    write!(text, "{}", Spaced(*first))?;
    for next in rest {
        write!(text, " | {}", Spaced(*next))?;
    }
    Ok(())
}

pub fn lines(heap: Global, d: &Difference) -> Result<String, AllocError>
    ensures made { IfOk result (λ s. string_bytes s ≡ difference_text d.now.packet.fields (fields_of d.now.first.items) (fields_of d.now.second.items)) }
{
    let mut text = String::new(heap);
    write!(text, "packet {}\nfirst ", Spaced(d.packet))?;
    set(&mut text, d.first.as_slice())?;
    text.push_str("\nsecond ")?;
    set(&mut text, d.second.as_slice())?;
    text.push_str("\n")?;
    Ok(text)
}

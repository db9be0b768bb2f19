// Reading a frame.
ghost use Rattle.std.specs.Prelude.{◌≡◌, [], ◌∷◌};
ghost use Rattle.octets.specs.Readers.{told, told_as, rest};
ghost use Rattle.octets.specs.Parse.{alone};
ghost use Rattle.wire.specs.Frames as spec;

use super::Frame;
use octets::{Cursor, Fault};
use packet::Packet;

// The packet whose first field has been read.
fn packet(c: &mut Cursor, first: u16) -> Result<Packet, Fault>
    ensures value { told_as (λ p. p.fields) result (rest c.new) ≡ spec.fields 7 (first ∷ []) (rest c.old) }
{
    let mut fields = [first; 8];
    for field in &mut fields[1..] {
        *field = c.word()?;
    }
    Ok(Packet { fields })
}

// The first field of a packet that comes in at a port.
fn entry(c: &mut Cursor, port: u8) -> Result<u16, Fault>
    ensures value { told result (rest c.new) ≡ spec.entry port (rest c.old) }
{
    let x = c.word()?;
    if x != u16::from(port) {
        return Err(Fault::Range);
    }
    Ok(x)
}

fn cabled(c: &mut Cursor, h: u8, port: u8) -> Result<Frame, Fault>
    ensures value { told result (rest c.new) ≡ spec.cabled h port (rest c.old) }
{
    let _kind = c.kind(64)?;
    let version = c.word()?;
    let hops = c.below(h)?;
    let first = entry(c, port)?;
    let packet = packet(c, first)?;
    Ok(Frame {
        version,
        hops,
        packet,
    })
}

fn outside(c: &mut Cursor) -> Result<Packet, Fault>
    ensures value { told result (rest c.new) ≡ spec.outside (rest c.old) }
{
    let _kind = c.kind(64)?;
    let _version = c.word()?;
    let _hops = c.byte()?;
    let first = c.word()?;
    packet(c, first)
}

// A frame that comes over a cable in at a port, in a net of h hops, with nothing behind it.
pub fn read_cable(bytes: &[u8], h: u8, port: u8) -> Result<Frame, Fault>
    ensures value { told result [] ≡ alone (spec.cabled h port) bytes.now }
{
    let mut c = Cursor::new(bytes);
    let frame = cabled(&mut c, h, port)?;
    c.end()?;
    Ok(frame)
}

// A frame from outside, with nothing behind it. Version and hops say nothing there.
pub fn read_outside(bytes: &[u8]) -> Result<Packet, Fault>
    ensures value { told result [] ≡ alone spec.outside bytes.now }
{
    let mut c = Cursor::new(bytes);
    let packet = outside(&mut c)?;
    c.end()?;
    Ok(packet)
}

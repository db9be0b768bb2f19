// Reading a list of cables.
ghost use Rattle.std.specs.Prelude.{◌≡◌, ◌<◌, ◌≤◌, [], IfOk};
ghost use Rattle.octets.specs.Readers.{told, told_as, rest};
ghost use Rattle.octets.specs.Parse.{alone};
ghost use Rattle.wire.specs.Cables.{layout_of};
ghost use Rattle.wire.specs.Layouts as spec;
ghost use Rattle.wire.specs.Nets.{wires_in, Alike};
ghost use Rattle.wire.specs.Reading.{Reads};

use super::Cables;
use crate::net::Net;
use octets::{Cursor, Fault};

// A port of a switch on which nothing hangs.
fn free_port(c: &mut Cursor, net: &Net, switch: u8) -> Result<u8, Fault>
    ensures value { told result (rest c.new) ≡ spec.free_port net.now.ports (wires_in net.now) switch (rest c.old) }
    ensures there { IfOk result (λ p. p < net.now.ports) }
{
    let port = c.below(net.ports())?;
    net.check_free(switch, port)?;
    Ok(port)
}

// A port of a switch that is on no cable.
fn open_port(c: &mut Cursor, net: &Net, switch: u8) -> Result<u8, Fault>
    ensures value { told result (rest c.new) ≡ spec.open_port net.now.ports (wires_in net.now) switch (rest c.old) }
    ensures there { IfOk result (λ p. p < net.now.ports) }
{
    let port = c.below(net.ports())?;
    net.check_open(switch, port)?;
    Ok(port)
}

// One end holds its port while the other one is read.
fn cable(c: &mut Cursor, net: &mut Net) -> Result<(), Fault>
    ensures value { told_as (λ _. wires_in net.new) result (rest c.new)
        ≡ spec.cable net.old.switches net.old.ports (wires_in net.old) (rest c.old) }
    ensures alike { Alike net.new net.old }
{
    let i = c.below(net.switches())?;
    let p = free_port(c, net, i)?;
    net.open(i, p);
    let j = c.below(net.switches())?;
    let q = free_port(c, net, j)?;
    net.link(i, p, j, q);
    Ok(())
}

fn outside(c: &mut Cursor, net: &mut Net) -> Result<(), Fault>
    ensures value { told_as (λ _. wires_in net.new) result (rest c.new)
        ≡ spec.outside net.old.switches net.old.ports (wires_in net.old) (rest c.old) }
    ensures alike { Alike net.new net.old }
{
    let i = c.below(net.switches())?;
    let p = open_port(c, net, i)?;
    net.open(i, p);
    Ok(())
}

// All items of one kind, each by a call of its reader.
fn times<F: Fn(&mut Cursor, &mut Net) -> Result<(), Fault>>(
    c: &mut Cursor,
    net: &mut Net,
    count: u16,
    read: F,
) -> Result<(), Fault>
    requires callable { F.IsAlwaysCallable read }
    ensures value { (step : _) → Reads net.old.switches net.old.ports (F.post read) step →
        (told_as (λ _. wires_in net.new) result (rest c.new) ≡ spec.times count step (wires_in net.old) (rest c.old)) × Alike net.new net.old }
{
    for _ in 0..count {
        read(c, net)?;
    }
    Ok(())
}

// What hangs on the ports: all cables, and then all outside ports.
fn wires(c: &mut Cursor, switches: u8, ports: u8) -> Result<Net, Fault>
    requires few { switches ≤ 24 }
    requires narrow { ports ≤ 32 }
    ensures value { told_as wires_in result (rest c.new) ≡ spec.wires switches ports (rest c.old) }
    ensures net { IfOk result (λ net. (net.switches ≡ switches) × (net.ports ≡ ports)) }
{
    let mut net = Net::new(switches, ports);
    let count = c.word()?;
    times(c, &mut net, count, cable)?;
    let count = c.word()?;
    times(c, &mut net, count, outside)?;
    Ok(net)
}

fn layout(c: &mut Cursor) -> Result<Cables, Fault>
    ensures value { told_as layout_of result (rest c.new) ≡ spec.layout (rest c.old) }
{
    let switches = c.between(1, 24)?;
    let ports = c.between(1, 32)?;
    let hops = c.between(0, 16)?;
    let net = wires(c, switches, ports)?;
    Ok(Cables { net, hops })
}

// A list of cables with nothing behind it.
pub fn read(bytes: &[u8]) -> Result<Cables, Fault>
    ensures value { told_as layout_of result [] ≡ alone spec.layout bytes.now }
{
    let mut c = Cursor::new(bytes);
    let cables = layout(&mut c)?;
    c.end()?;
    Ok(cables)
}

// The lines that describe a net.
ghost use Rattle.std.specs.Prelude.{◌≡◌, ◌<◌, ◌≤◌, true, not, [], IfOk, MatchResult};
ghost use Rattle.octets.specs.declared.fault.Fault.TheVariants.{Memory};
ghost use Rattle.octets.specs.Parse.{Read, alone};
ghost use Rattle.notation.specs.Words.{left};
ghost use Rattle.notation.specs.Readers.{told};
ghost use Rattle.wire.specs.Layouts.{layout};
ghost use Rattle.wire.specs.Nets.{wires_in};
ghost use Rattle.wire.specs.declared.board.Wire.TheVariants.{Outside};
ghost use Rattle.wire.specs.Wires.{is_free, is_cable, put};
ghost use Rattle.script.specs.Headers as spec;
ghost use Rattle.script.specs.Described.{layout_of, Opens, Becomes};

use super::Description;
use crate::numbers::{end, number};
use notation::Words;
use octets::Fault;
use std::alloc::Global;
use wire::list::{Cable, End};
use wire::{Net, list};

// A number from low to high.
fn ranged(words: &mut Words, low: u8, high: u8) -> Result<u8, Fault>
    ensures value { told result (left words.new) ≡ spec.ranged low high (left words.old) }
    ensures bounds { IfOk result (λ x. (low ≤ x) × (x ≤ high)) }
{
    let n = number(words)?;
    if n < u32::from(low) || n > u32::from(high) {
        return Err(Fault::Range);
    }
    Ok(n as u8)
}

// A switch or a port.
fn below(words: &mut Words, n: u8) -> Result<u8, Fault>
    ensures value { told result (left words.new) ≡ spec.below n (left words.old) }
    ensures bound { IfOk result (λ x. x < n) }
{
    let i = number(words)?;
    if i >= u32::from(n) {
        return Err(Fault::Range);
    }
    Ok(i as u8)
}

// A port of a switch on which nothing hangs.
fn free_port(words: &mut Words, net: &Net, switch: u8) -> Result<u8, Fault>
    ensures value { told result (left words.new) ≡ spec.free_port net.now.ports (wires_in net.now) switch (left words.old) }
    ensures bound { IfOk result (λ x. x < net.now.ports) }
    ensures free { IfOk result (λ x. is_free (wires_in net.now switch x) ≡ true) }
{
    let port = below(words, net.ports())?;
    net.check_free(switch, port)?;
    Ok(port)
}

// A port for the other end of a cable, whose one end holds a port already.
fn other_port(words: &mut Words, net: &Net, one: End, switch: u8) -> Result<u8, Fault>
    ensures value { told result (left words.new)
        ≡ spec.free_port net.now.ports (put one.switch one.port Outside (wires_in net.now)) switch (left words.old) }
    ensures bound { IfOk result (λ x. x < net.now.ports) }
    ensures free { IfOk result (λ x. is_free (put one.switch one.port Outside (wires_in net.now) switch x) ≡ true) }
{
    let port = free_port(words, net, switch)?;
    if one == (End { switch, port }) {
        return Err(Fault::Port);
    }
    Ok(port)
}

// A port of a switch that is on no cable.
fn open_port(words: &mut Words, net: &Net, switch: u8) -> Result<u8, Fault>
    ensures value { told result (left words.new) ≡ spec.open_port net.now.ports (wires_in net.now) switch (left words.old) }
    ensures bound { IfOk result (λ x. x < net.now.ports) }
    ensures loose { IfOk result (λ x. not (is_cable (wires_in net.now switch x)) ≡ true) }
{
    let port = below(words, net.ports())?;
    net.check_open(switch, port)?;
    Ok(port)
}

impl Description {
    // The words behind `net`.
    pub(crate) fn net(heap: Global, words: &mut Words) -> Result<Description, Fault>
        ensures value { Opens result (spec.net (left words.old)) }
    {
        let switches = ranged(words, 1, 24)?;
        let ports = ranged(words, 1, 32)?;
        let hops = ranged(words, 0, 16)?;
        end(words)?;
        Ok(Description {
            net: Net::new(switches, ports),
            hops,
            cables: Vec::new(heap),
            ends: Vec::new(heap),
        })
    }

    // The words behind `cable`. One end holds its port while the other one is read.
    pub(crate) fn cable(&mut self, words: &mut Words) -> Result<(), Fault>
        ensures value { Becomes result self.new (spec.cable (layout_of self.old) (left words.old)) }
    {
        let i = below(words, self.net.switches())?;
        let p = free_port(words, &self.net, i)?;
        let one = End { switch: i, port: p };
        let j = below(words, self.net.switches())?;
        let q = other_port(words, &self.net, one, j)?;
        end(words)?;
        let other = End { switch: j, port: q };
        self.cables.push(Cable { one, other })?;
        self.net.link(i, p, j, q);
        Ok(())
    }

    // The words behind `outside`. A port that is named again is the same port.
    pub(crate) fn outside(&mut self, words: &mut Words) -> Result<(), Fault>
        ensures value { Becomes result self.new (spec.outside (layout_of self.old) (left words.old)) }
    {
        let i = below(words, self.net.switches())?;
        let p = open_port(words, &self.net, i)?;
        end(words)?;
        if self.net.at(i, p).is_outside() {
            return Ok(());
        }
        self.ends.push(End { switch: i, port: p })?;
        self.net.open(i, p);
        Ok(())
    }

    // The bytes of its list of cables, which read as the same net.
    pub(crate) fn bytes(&self, heap: Global) -> Result<Vec<u8>, Fault>
        ensures cases { MatchResult result (λ bs. alone layout bs.items ≡ Read (layout_of self.now) []) (λ e. e ≡ Memory) }
    {
        let mut out = Vec::new(heap);
        // Too long a list counts as want of memory.
        list::write(
            &mut out,
            self.net.switches(),
            self.net.ports(),
            self.hops,
            &self.cables,
            &self.ends,
        )
        .map_err(|_| Fault::Memory)?;
        Ok(out)
    }
}

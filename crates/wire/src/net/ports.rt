// What hangs on the ports of a net, and how that changes.
ghost use Rattle.std.specs.Prelude.{◌≡◌, ◌<◌, ◌≤◌, true, false, MatchResult};
ghost use Rattle.octets.specs.declared.fault.Fault.TheVariants as faults;
ghost use Rattle.wire.specs.declared.board.Wire.TheVariants.{Outside, To};
ghost use Rattle.wire.specs.Nets.{wires_in, Alike};
ghost use Rattle.wire.specs.Wires as spec;

use super::Net;
use crate::board::{Board, Wire};
use octets::Fault;

impl Net {
    // Nothing hangs on any port.
    pub fn new(switches: u8, ports: u8) -> Net
        requires few { switches ≤ 24 }
        requires narrow { ports ≤ 32 }
        ensures switches { result.switches ≡ switches }
        ensures ports { result.ports ≡ ports }
        ensures wires { wires_in result ≡ spec.bare }
    {
        Net {
            switches,
            ports,
            board: Board::new(),
        }
    }

    pub fn switches(&self) -> u8
        ensures value { result ≡ self.now.switches }
        ensures bound { result ≤ 24 }
    {
        self.switches
    }

    pub fn ports(&self) -> u8
        ensures value { result ≡ self.now.ports }
        ensures bound { result ≤ 32 }
    {
        self.ports
    }

    // What hangs on a port; nothing on one that isn't there.
    pub fn at(&self, switch: u8, port: u8) -> Wire
        ensures value { result ≡ wires_in self.now switch port }
    {
        self.board.at(switch, port)
    }

    // Nothing may hang on the port.
    pub fn check_free(&self, switch: u8, port: u8) -> Result<(), Fault>
        ensures cases { MatchResult result
            (λ _. spec.is_free (wires_in self.now switch port) ≡ true)
            (λ e. (spec.is_free (wires_in self.now switch port) ≡ false) × (e ≡ faults.Port)) }
    {
        if self.at(switch, port).is_free() {
            Ok(())
        } else {
            Err(Fault::Port)
        }
    }

    // The port may be on no cable.
    pub fn check_open(&self, switch: u8, port: u8) -> Result<(), Fault>
        ensures cases { MatchResult result
            (λ _. spec.is_cable (wires_in self.now switch port) ≡ false)
            (λ e. (spec.is_cable (wires_in self.now switch port) ≡ true) × (e ≡ faults.Port)) }
    {
        if self.at(switch, port).is_cable() {
            Err(Fault::Port)
        } else {
            Ok(())
        }
    }

    // The port is outside.
    pub fn open(&mut self, switch: u8, port: u8)
        requires switch { switch < self.old.switches }
        requires port { port < self.old.ports }
        ensures alike { Alike self.new self.old }
        ensures wires { wires_in self.new ≡ spec.put switch port Outside (wires_in self.old) }
    {
        self.board.put(switch, port, Wire::Outside);
    }

    // A cable from port p of switch i to port q of switch j.
    pub fn link(&mut self, i: u8, p: u8, j: u8, q: u8)
        requires one { (i < self.old.switches) × (p < self.old.ports) }
        requires other { (j < self.old.switches) × (q < self.old.ports) }
        ensures alike { Alike self.new self.old }
        ensures wires { wires_in self.new ≡ spec.put j q (To i p) (spec.put i p (To j q) (wires_in self.old)) }
    {
        self.board.put(i, p, Wire::To(j, q));
        self.board.put(j, q, Wire::To(i, p));
    }
}

// What the cables of a net are.
ghost use Rattle.std.specs.Prelude.{◌≡◌, ◌≤◌};
ghost use Rattle.wire.specs.Cables.{layout_of};
ghost use Rattle.wire.specs.Wires.{Sound};

use super::Cables;
use crate::board::Wire;

impl Cables {
    pub fn switches(&self) -> u8
        ensures value { result ≡ (layout_of self.now).switches }
        ensures bounds { (1 ≤ result) × (result ≤ 24) }
    {
        self.net.switches()
    }

    pub fn ports(&self) -> u8
        ensures value { result ≡ (layout_of self.now).ports }
        ensures bounds { (1 ≤ result) × (result ≤ 32) }
    {
        self.net.ports()
    }

    pub fn hops(&self) -> u8
        ensures value { result ≡ (layout_of self.now).hops }
        ensures bounds { result ≤ 16 }
    {
        self.hops
    }

    // What hangs on a port; nothing on one that isn't there.
    pub fn wire(&self, switch: u8, port: u8) -> Wire
        ensures value { result ≡ (layout_of self.now).wire switch port }
        ensures sound { Sound (layout_of self.now).switches (layout_of self.now).ports (layout_of self.now).wire }
    {
        self.net.at(switch, port)
    }
}

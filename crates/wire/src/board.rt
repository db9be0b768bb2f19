// What hangs on each port.
ghost use Rattle.std.specs.Prelude.{◌≡◌, ◌<◌, length, slice_set};
ghost use Rattle.wire.specs.Wires.{wires_of};
ghost use Rattle.wire.specs.Wires as spec;

#[derive(Clone, Copy, Debug, Default, PartialEq, Eq)]
pub enum Wire {
    #[default]
    Nothing,
    Outside,
    // The other end of the cable: a switch and a port.
    To(u8, u8),
}

// 32 ports for each of 24 switches.
#[derive(Clone, Copy)]
pub struct Board {
    wires: [[Wire; 32]; 24],
}

impl Wire {
    pub fn is_free(self) -> bool
        ensures value { result ≡ spec.is_free self }
    {
        self == Wire::Nothing
    }

    pub fn is_outside(self) -> bool
        ensures value { result ≡ spec.is_outside self }
    {
        self == Wire::Outside
    }

    pub fn is_cable(self) -> bool
        ensures value { result ≡ spec.is_cable self }
    {
        matches!(self, Wire::To(_, _))
    }
}

// Hangs something else on a port of a switch.
fn hang(ports: &mut [Wire; 32], p: u8, wire: Wire)
    requires { p < 32 }
    ensures after { ports.new ≡ slice_set ports.old p wire }
    ensures there { p < length ports.old }
{
    ports[p as usize] = wire;
}

impl Board {
    pub fn new() -> Board
        ensures value { wires_of result ≡ spec.bare }
    {
        Board {
            wires: [[Wire::Nothing; 32]; 24],
        }
    }

    // Nothing for a port that isn't there.
    pub fn at(&self, i: u8, p: u8) -> Wire
        ensures value { result ≡ wires_of self.now i p }
    {
        let Some(ports) = self.wires.get(i as usize) else {
            return Wire::Nothing;
        };
        ports.get(p as usize).copied().unwrap_or_default()
    }

    pub fn put(&mut self, i: u8, p: u8, wire: Wire)
        requires switch { i < 24 }
        requires port { p < 32 }
        ensures after { wires_of self.new ≡ spec.put i p wire (wires_of self.old) }
    {
        hang(&mut self.wires[i as usize], p, wire);
    }
}

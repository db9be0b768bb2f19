// A field and a value: as a want, that the field has the value, and as a setting, that the field gets it.
ghost use Rattle.std.specs.Prelude.{◌≡◌, Some};
ghost use Rattle.packet.specs.Packet.{put};
ghost use Rattle.packet.specs.Table.{meets};
ghost use Rattle.packet.specs.Pairs.{want_of, setting_of, pair_text};

use crate::packets::Packet;
use std::fmt;

// Pairs are ordered by their fields, and then by their values.
#[derive(Clone, Copy, Debug, Default, PartialEq, Eq, PartialOrd, Ord, Hash)]
pub struct Pair {
    pub field: u8,
    pub value: u16,
}

impl Pair {
    pub fn is_met(self, p: Packet) -> bool
        ensures value { result ≡ meets (want_of self) p.fields }
    {
        p.field(self.field) == self.value
    }

    pub fn set(self, p: Packet) -> Packet
        ensures value { result.fields ≡ put (setting_of self).at (setting_of self).value p.fields }
    {
        p.put(self.field, self.value)
    }
}

impl fmt::Display for Pair {
    ghost output = { λ p. Some (pair_text p) };

    fn fmt<W: fmt::Write>(&self, f: &mut fmt::Formatter<W>) -> fmt::Result {
        let field = self.field;
        let value = self.value;
        write!(f, "{field}={value}")
    }
}

// Outs: what becomes of each field of a packet.
ghost use Rattle.std.specs.Prelude.{◌≡◌, length, None, slice_index_or};
ghost use Rattle.packet.specs.Packet as model;
ghost use Rattle.packet.specs.Packet.{field, put};
ghost use Rattle.trees.specs.Outs.{applied};

use packet::Packet;

// The value that each field is set to, or None where it is kept. The order is the one in which sets of outs are kept.
#[derive(Clone, Copy, Debug, PartialEq, Eq, PartialOrd, Ord, Hash)]
pub struct Out {
    pub sets: [Option<u16>; 8],
}

impl Out {
    // All fields are kept.
    pub fn same() -> Out
        ensures value { (p : model.Packet) → length p ≡ 8 → applied result.sets p ≡ p }
    {
        Out { sets: [None; 8] }
    }

    // Then this field is set.
    pub fn with(mut self, f: u8, x: u16) -> Out
        ensures value { (p : model.Packet) → length p ≡ 8 → applied result.sets p ≡ put f x (applied self.sets p) }
    {
        if f < 8 {
            self.sets[f as usize] = Some(x);
        }
        self
    }

    // Of packets in which the field has the value, the same without setting it to that.
    pub fn without(mut self, f: u8, x: u16) -> Out
        ensures value { (p : model.Packet) → length p ≡ 8 → field f p ≡ x → applied result.sets p ≡ applied self.sets p }
    {
        if f < 8 {
            self.sets[f as usize] = self.sets[f as usize].filter(|y| *y != x);
        }
        self
    }

    // What a field is set to.
    pub fn set(self, f: u8) -> Option<u16>
        ensures value { result ≡ slice_index_or self.sets f None }
    {
        self.sets.get(f as usize).copied().unwrap_or(None)
    }

    // The copy of a packet.
    pub fn apply(self, mut p: Packet) -> Packet
        ensures value { result.fields ≡ applied self.sets p.fields }
    {
        for (field, set) in self.sets.iter().enumerate() {
            p.fields[field] = set.unwrap_or(p.fields[field]);
        }
        p
    }
}

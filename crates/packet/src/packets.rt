// A packet: eight fields of 16 bits.
ghost use Rattle.std.specs.Prelude.{◌≡◌, ◌<◌, ◌≤◌, ◌++◌, length, take, drop, Decides, IfErr, MatchResult, ◌↔◌, IsOk};
ghost use Rattle.std.specs.Ordering.{MatchOrdering};
ghost use Rattle.octets.specs.declared.fault.Fault.TheVariants.{Form};
ghost use Rattle.packet.specs.Packet.{Before, field, put};

use octets::Fault;
use std::cmp::Ordering;

#[derive(Clone, Copy, Debug, Default, PartialEq, Eq, PartialOrd, Ord, Hash)]
pub struct Packet {
    pub fields: [u16; 8],
}

impl Packet {
    pub fn field(self, f: u8) -> u16
        ensures value { result ≡ field f self.fields }
    {
        self.fields.get(f as usize).copied().unwrap_or(0)
    }

    pub fn put(mut self, f: u8, x: u16) -> Packet
        ensures value { result.fields ≡ put f x self.fields }
    {
        if f < 8 {
            self.fields[f as usize] = x;
        }
        self
    }

    // What `==` answers.
    pub fn equals(self, other: Packet) -> bool
        ensures test { Decides result (self.fields ≡ other.fields) }
    {
        self == other
    }

    // Packets are ordered by their fields, the first one first.
    pub fn order(self, other: Packet) -> Ordering
        ensures cases { MatchOrdering result (Before self.fields other.fields) (self.fields ≡ other.fields) (Before other.fields self.fields) }
    {
        self.cmp(&other)
    }

    // Writes the fields into the first eight words. Nothing changes where there are fewer.
    pub fn write_words(self, words: &mut [u16]) -> Result<(), Fault>
        ensures test { IsOk result ↔ (8 ≤ length words.old) }
        ensures fault { IfErr result (λ e. e ≡ Form) }
        ensures after { 8 ≤ length words.old → words.new ≡ self.fields ++ drop 8 words.old }
        ensures same { length words.old < 8 → words.new ≡ words.old }
    {
        if words.len() < 8 {
            return Err(Fault::Form);
        }
        words[..8].copy_from_slice(&self.fields);
        Ok(())
    }
}

// The packet whose fields are the first eight words.
impl TryFrom<&[u16]> for Packet {
    type Error = Fault;

    fn try_from(words: &[u16]) -> Result<Packet, Fault>
        ensures cases { MatchResult result
            (λ p. (8 ≤ length words.now) × (p.fields ≡ take 8 words.now))
            (λ e. (length words.now < 8) × (e ≡ Form)) }
    {
        let [a, b, c, d, e, f, g, h, ..] = words else {
            return Err(Fault::Form);
        };
        Ok(Packet {
            fields: [*a, *b, *c, *d, *e, *f, *g, *h],
        })
    }
}

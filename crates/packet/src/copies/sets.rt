// How a set of copies is made and read.
ghost use Rattle.std.specs.Prelude.{◌≡◌, ◌≤◌, [], ◌∷◌, ◌++◌, length, MatchResult};
ghost use Rattle.packet.specs.Listed.{fields_of};
ghost use Rattle.packet.specs.Copies.{listing, Took};

use super::Copies;
use crate::packets::Packet;
use octets::Fault;

impl<const MOST: usize> Copies<MOST> {
    pub fn none() -> Copies<MOST>
        ensures value { listing result ≡ [] }
    {
        Copies {
            packets: [Packet::default(); MOST],
            count: 0,
        }
    }

    pub fn one(p: Packet) -> Copies<MOST>
        requires { 1 ≤ MOST }
        ensures value { listing result ≡ p.fields ∷ [] }
    {
        Copies {
            packets: [p; MOST],
            count: 1,
        }
    }

    // The same packets again.
    pub fn copy(&self) -> Copies<MOST>
        ensures value { listing result ≡ listing self.now }
    {
        *self
    }

    pub fn as_slice(&self) -> &[Packet]
        ensures value { fields_of result.now ≡ listing self.now }
        ensures few { length result.now ≤ MOST }
    {
        &self.packets[..self.count]
    }

    // One packet more, unless it is there already.
    pub fn add(&mut self, p: Packet) -> Result<(), Fault>
        ensures cases { Took MOST (listing self.old ++ p.fields ∷ []) result self.new }
    {
        if self.as_slice().contains(&p) {
            return Ok(());
        }
        if self.count == MOST {
            return Err(Fault::Copies);
        }
        self.packets[self.count] = p;
        self.count += 1;
        Ok(())
    }

    // The packets of another set too.
    pub fn join(&mut self, more: &Copies<MOST>) -> Result<(), Fault>
        ensures cases { Took MOST (listing self.old ++ listing more.now) result self.new }
    {
        for p in more.as_slice() {
            self.add(*p)?;
        }
        Ok(())
    }
}

// How more becomes known.
ghost use Rattle.std.specs.Prelude.{◌≡◌, ◌<◌, ◌≤◌, [], ◌∷◌, ◌++◌, length};
ghost use Rattle.packet.specs.Packet.{put};
ghost use Rattle.packet.specs.Pairs.{want_of};
ghost use Rattle.prescribed.specs.Table.{is_known};
ghost use Rattle.leaves.specs.Pairs.{wants_of};
ghost use Rattle.maker.specs.Knowing.{known_of};

use super::Known;
use arrayvec::ArrayVec;
use packet::{Packet, Pair};

impl Known {
    // Nothing is known, and the sample is a packet of values that are named nowhere.
    pub fn none(sample: Packet) -> Known
        ensures known { known_of result ≡ [] }
        ensures sample { result.sample ≡ sample }
    {
        Known {
            wants: ArrayVec::new(),
            sample,
        }
    }

    pub fn sample(&self) -> Packet
        ensures value { result ≡ self.now.sample }
    {
        self.sample
    }

    pub fn as_slice(&self) -> &[Pair]
        ensures value { wants_of result.now ≡ known_of self.now }
        ensures few { length result.now ≤ 8 }
    {
        self.wants.as_slice()
    }

    pub fn knows(&self, f: u8) -> bool
        ensures value { result ≡ is_known f (known_of self.now) }
    {
        self.wants.as_slice().iter().any(|want| want.field == f)
    }

    // What is known where the field has the value too.
    pub fn with(&self, p: Pair) -> Known
        requires room { length (known_of self.now) < 8 }
        ensures known { known_of result ≡ known_of self.now ++ want_of p ∷ [] }
        ensures sample { result.sample.fields ≡ put p.field p.value self.now.sample.fields }
    {
        let mut wants = ArrayVec::new();
        wants.try_extend_from_slice(self.wants.as_slice()).unwrap();
        wants.push(p);
        let sample = self.sample.put(p.field, p.value);
        Known { wants, sample }
    }
}

// Writing a frame.
ghost use Rattle.std.specs.Prelude.{◌≡◌, ◌++◌, MatchResult};
ghost use Rattle.wire.specs.Frames as spec;

use super::Frame;
use crate::coded::Coded;
use std::alloc::AllocError;

// Puts the bytes behind what is there, or changes nothing where no memory is left.
pub fn write(out: &mut Vec<u8>, frame: Frame) -> Result<(), AllocError>
    ensures cases { MatchResult result
        (λ _. out.new.items ≡ out.old.items ++ spec.frame_bytes frame)
        (λ _. out.new.items ≡ out.old.items) }
{
    let [high, low]: [u8; 2] = frame.version.code();
    let [a, b, c, d, e, f, g, h] = frame.packet.fields;
    // By twos: the version lies across the first two.
    let bytes = [
        [64, high],
        [low, frame.hops],
        a.code(),
        b.code(),
        c.code(),
        d.code(),
        e.code(),
        f.code(),
        g.code(),
        h.code(),
    ];
    out.extend_from_slice(bytes.as_flattened())
}

// Marks, which go over cables in front of what is sent by a new version.
ghost use Rattle.std.specs.Prelude.{◌≡◌, [], ◌++◌, MatchResult};
ghost use Rattle.octets.specs.Readers.{told, rest};
ghost use Rattle.octets.specs.Parse.{alone};
ghost use Rattle.wire.specs.Marks as spec;

use octets::{Cursor, Fault};
use std::alloc::AllocError;

#[derive(Clone, Copy, Debug, PartialEq, Eq, PartialOrd, Ord)]
pub struct Mark {
    pub version: u16,
    pub round: u8,
}

fn read_mark(c: &mut Cursor, h: u8) -> Result<Mark, Fault>
    ensures value { told result (rest c.new) ≡ spec.mark h (rest c.old) }
{
    let _kind = c.kind(65)?;
    let version = c.word()?;
    let round = c.between(1, h)?;
    Ok(Mark { version, round })
}

// A mark, in a net of h hops, with nothing behind it.
pub fn read(bytes: &[u8], h: u8) -> Result<Mark, Fault>
    ensures value { told result [] ≡ alone (spec.mark h) bytes.now }
{
    let mut c = Cursor::new(bytes);
    let m = read_mark(&mut c, h)?;
    c.end()?;
    Ok(m)
}

// Puts the bytes behind what is there, or changes nothing where no memory is left.
pub fn write(out: &mut Vec<u8>, m: Mark) -> Result<(), AllocError>
    ensures cases { MatchResult result
        (λ _. out.new.items ≡ out.old.items ++ spec.mark_bytes m)
        (λ _. out.new.items ≡ out.old.items) }
{
    let [high, low] = m.version.to_be_bytes();
    out.extend_from_slice(&[65, high, low, m.round])
}

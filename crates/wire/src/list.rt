// A list of cables as people write it, and its bytes.
ghost use Rattle.std.specs.Prelude.{◌≡◌, ◌<◌, ◌⊎◌, ◌++◌, length, IfErr, MatchResult};
ghost use Rattle.octets.specs.declared.fault.Fault.TheVariants.{Memory};
ghost use Rattle.wire.specs.Lists as spec;

use crate::coded::{Coded, append};
use octets::Fault;

// A port of a switch.
#[derive(Clone, Copy, Debug, PartialEq, Eq)]
pub struct End {
    pub switch: u8,
    pub port: u8,
}

#[derive(Clone, Copy, Debug, PartialEq, Eq)]
pub struct Cable {
    pub one: End,
    pub other: End,
}

impl Coded<2> for End {
    ghost code = { spec.end_bytes };

    fn code(self) -> [u8; 2] {
        [self.switch, self.port]
    }
}

impl Coded<4> for Cable {
    ghost code = { spec.cable_bytes };

    fn code(self) -> [u8; 4] {
        let Cable { one, other } = self;
        [one.switch, one.port, other.switch, other.port]
    }
}

// Puts the bytes behind what is there. Nothing changes where one of the lists has more than 65,535 elements or no memory is left.
pub fn write(
    out: &mut Vec<u8>,
    switches: u8,
    ports: u8,
    hops: u8,
    cables: &[Cable],
    ends: &[End],
) -> Result<(), Fault>
    ensures cases { MatchResult result
        (λ _. out.new.items ≡ out.old.items ++ spec.layout_bytes switches ports hops cables.now ends.now)
        (λ _. out.new.items ≡ out.old.items) }
    ensures refused { IfErr result (λ e. (e ≡ Memory) ⊎ ((65535 < length cables.now) ⊎ (65535 < length ends.now))) }
{
    let (Ok(k), Ok(l)) = (u16::try_from(cables.len()), u16::try_from(ends.len())) else {
        return Err(Fault::Range);
    };
    out.reserve(7 + 4 * cables.len() + 2 * ends.len())?;
    out.extend_from_slice(&[switches, ports, hops]).unwrap();
    append(out, &[k]);
    append(out, cables);
    append(out, &[l]);
    append(out, ends);
    Ok(())
}

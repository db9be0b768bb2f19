// Why something is refused. Every refusal of every crate is one of these.
ghost use Rattle.std.specs.Prelude.{◌≡◌, ◌↔◌, IsNone, Some};
ghost use Rattle.std.specs.Option.{unwrap_or};
ghost use Rattle.octets.specs.Faults.{number, cause_of};
ghost use Rattle.octets.specs.declared.fault.Fault.TheVariants.{Memory};

use std::alloc::{AllocError, AllocFailed};
use std::fmt;

#[derive(Clone, Copy, Debug, PartialEq, Eq)]
pub enum Fault {
    // An unknown kind or word, or bytes that end too early or go on too long.
    Form,
    // A field, value, switch, port, hop count or number of nodes out of range; a switch missing or twice in a change.
    Range,
    // A node names itself, a later node, or one of the wrong sort.
    Operand,
    // A port on two cables, or on a cable and outside; a cable from a port to itself.
    Port,
    // The product over the fields of one more than the number of tested values is above 65,536.
    Product,
    // A node has more than 16 copies of one packet.
    Copies,
    // More than 2,048 rules, or more than 8,192 in a table on the way.
    Rules,
    // An order for another switch.
    OtherSwitch,
    // A change while another one is under way.
    Busy,
    // A change while the desk's version is the last one.
    LastVersion,
    // An answer about an order that isn't the stage's.
    OtherOrder,
    // No memory is left. It is no fault of the input, so it has no number.
    Memory,
}

impl Fault {
    // Want of memory has none.
    pub fn number(self) -> Option<u8>
        ensures value { unwrap_or result 0 ≡ number self }
        ensures none { IsNone result ↔ (self ≡ Memory) }
    {
        match self {
            Fault::Form => Some(1),
            Fault::Range => Some(2),
            Fault::Operand => Some(3),
            Fault::Port => Some(4),
            Fault::Product => Some(5),
            Fault::Copies => Some(6),
            Fault::Rules => Some(7),
            Fault::OtherSwitch => Some(8),
            Fault::Busy => Some(9),
            Fault::LastVersion => Some(10),
            Fault::OtherOrder => Some(11),
            Fault::Memory => None,
        }
    }
}

// What the number stands for.
impl fmt::Display for Fault {
    ghost output = { λ fault. Some (cause_of fault) };

    fn fmt<W: fmt::Write>(&self, f: &mut fmt::Formatter<W>) -> fmt::Result {
        f.write_str(match self {
            Fault::Form => "unknown kind, bad length",
            Fault::Range =>
                "a field, value, switch, port, hop count or number of nodes out of range; in a change, a switch missing or twice",
            Fault::Operand => "a node names itself, a later one, or one of the wrong sort",
            Fault::Port =>
                "a port on two cables, or on a cable and outside; a cable from a port to itself",
            Fault::Product => "the product over the fields is above 65,536",
            Fault::Copies => "more than 16 copies",
            Fault::Rules => "more than 2,048 rules, or 8,192 in a table on the way",
            Fault::OtherSwitch => "an order for another switch",
            Fault::Busy => "change while the desk isn't idle",
            Fault::LastVersion => "change while the desk's version is 65,535",
            Fault::OtherOrder => "an answer about an order that isn't the stage's",
            Fault::Memory => "no memory is left",
        })
    }
}

impl From<AllocError> for Fault {
    ghost from_gives = { λ _ r. r ≡ Memory };

    fn from(_e: AllocError) -> Fault {
        Fault::Memory
    }
}

impl<T: Drop> From<AllocFailed<T>> for Fault {
    ghost from_gives = { λ _ r. r ≡ Memory };

    fn from(_e: AllocFailed<T>) -> Fault {
        Fault::Memory
    }
}

// Reading a text in the notation.
ghost use Rattle.std.specs.Prelude.{◌≡◌, None, Some};
ghost use Rattle.octets.specs.declared.fault.Fault.TheVariants.{Memory};
ghost use Rattle.notation.specs.Refusals.{refusal_text};

use crate::used::Used;
use octets::Fault;
use std::alloc::AllocError;
use std::fmt;
use text::Draft;

mod lines;
mod nodes;

pub use lines::read;

// Why a text is refused, and the line where the fault stands, from 1. A text with no node has no such line.
#[derive(Clone, Copy, Debug, PartialEq, Eq)]
pub struct Refusal {
    pub fault: Fault,
    pub line: Option<usize>,
}

// A refusal that no line is at fault for.
impl From<Fault> for Refusal {
    ghost from_gives = { λ fault refusal. (refusal.fault ≡ fault) × (refusal.line ≡ None) };

    fn from(fault: Fault) -> Refusal {
        Refusal { fault, line: None }
    }
}

impl From<AllocError> for Refusal {
    ghost from_gives = { λ _ refusal. (refusal.fault ≡ Memory) × (refusal.line ≡ None) };

    fn from(_e: AllocError) -> Refusal {
        Refusal::from(Fault::Memory)
    }
}

// What a program says behind its name.
impl fmt::Display for Refusal {
    ghost output = { λ refusal. Some (refusal_text refusal) };

    fn fmt<W: fmt::Write>(&self, f: &mut fmt::Formatter<W>) -> fmt::Result {
        let fault = self.fault;
        match (self.line, fault.number()) {
            (Some(line), Some(number)) => write!(f, "line {line}: refused {number}: {fault}"),
            (Some(line), None) => write!(f, "line {line}: {fault}"),
            (None, Some(number)) => write!(f, "refused {number}: {fault}"),
            (None, None) => write!(f, "{fault}"),
        }
    }
}

// The nodes so far, and which of them a node has used.
#[derive(Drop)]
pub struct Reader {
    draft: Draft,
    used: Used,
}

// The text in an input.
ghost use Rattle.std.specs.Prelude.{◌≡◌, ◌⊎◌, None, MatchResult};
ghost use Rattle.octets.specs.declared.fault.Fault.TheVariants.{Memory};
ghost use Rattle.octets.specs.Faults.{number};
ghost use Rattle.text.specs.Texts.{nodes_of};
ghost use Rattle.notation.specs.Notation.{Whole, Refused};
ghost use Rattle.console.specs.Inputs.{read_for};

use notation::Refusal;
use std::alloc::Global;
use text::{Draft, Text};

// The switches that a text can be for.
pub const SWITCHES: u8 = 24;

// How a text is written: in the notation, or in its byte form.
#[derive(Clone, Copy, Debug, PartialEq, Eq)]
pub enum Writing {
    Notation,
    Bytes,
}

// In the byte form the text is for one of so many switches.
pub fn read(heap: Global, writing: Writing, switches: u8, input: &[u8]) -> Result<Text, Refusal>
    ensures cases { MatchResult result
        (λ t. read_for switches writing input.now ≡ Whole (nodes_of t))
        (λ e. ((e.fault ≡ Memory) × (e.line ≡ None)) ⊎ (read_for switches writing input.now ≡ Refused (number e.fault) e.line)) }
{
    let draft = Draft::new(heap)?;
    match writing {
        Writing::Notation => notation::read(draft, input),
        Writing::Bytes => Ok(text::format::read_alone(draft, switches, input)?.text),
    }
}

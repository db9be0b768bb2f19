// What differ prints of its inputs.
ghost use Rattle.std.specs.Prelude.{◌≡◌, string_bytes, MatchResult};
ghost use Rattle.text.specs.Texts.{nodes_of};
ghost use Rattle.text.specs.Trees.{meaning};
ghost use Rattle.prescribed.specs.Fit.{fault_of};
ghost use Rattle.compare.specs.Compared.{NotCompared};
ghost use Rattle.console.specs.Inputs.{read_as};
ghost use Rattle.differ.specs.Prints.{Told, Answered, Rejected, Misfit};

use crate::lines::lines;
use compare::compare;
use console::Writing;
use console::input::{SWITCHES, read};
use notation::Refusal;
use octets::Fault;
use std::alloc::Global;
use text::Text;

// The lines of the comparison of two texts.
fn compared(heap: Global, first: Text, second: Text) -> Result<String, Fault>
    ensures cases { MatchResult result (λ s. Told (meaning (nodes_of first)) (meaning (nodes_of second)) (string_bytes s)) (NotCompared (meaning (nodes_of first)) (meaning (nodes_of second))) }
{
    match compare(heap, first, second)? {
        Some(difference) => Ok(lines(heap, &difference)?),
        None => Ok(String::from_str(heap, "same\n")?),
    }
}

// Whether the text fits.
fn fits(heap: Global, text: Text) -> Result<(), Refusal>
    ensures cases { MatchResult result (λ _. fault_of (meaning (nodes_of text)) ≡ 0) (Misfit (meaning (nodes_of text))) }
{
    let again = text.clone()?;
    compared(heap, text, again)?;
    Ok(())
}

// The first text is tested wholly before the second one is read.
pub fn answer(
    heap: Global,
    writing: Writing,
    first: &[u8],
    second: &[u8],
) -> Result<String, Refusal>
    ensures cases { MatchResult result
        (λ s. Answered (read_as writing first.now) (read_as writing second.now) (string_bytes s))
        (Rejected (read_as writing first.now) (read_as writing second.now)) }
{
    let one = read(heap, writing, SWITCHES, first)?;
    match read(heap, writing, SWITCHES, second) {
        Ok(two) => Ok(compared(heap, one, two)?),
        Err(refusal) => {
            fits(heap, one)?;
            Err(refusal)
        }
    }
}

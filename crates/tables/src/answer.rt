// What tables prints of its input.
ghost use Rattle.std.specs.Prelude.{◌≡◌, ◌≤◌, length, string_bytes, MatchResult};
ghost use Rattle.text.specs.Texts.{nodes_of};
ghost use Rattle.text.specs.Trees.{meaning};
ghost use Rattle.maker.specs.Makers.{policy_of, room};
ghost use Rattle.console.specs.Inputs.{read_as};
ghost use Rattle.tables.specs.Prints.{Printed, NotPrinted, Answered, Rejected};

use console::Writing;
use console::input::{SWITCHES, read};
use maker::Maker;
use notation::Refusal;
use octets::Fault;
use std::alloc::Global;
use table::Table;
use text::Text;

// The lines of a maker's table, which is made in the lent words.
fn printed(heap: Global, maker: &mut Maker, words: &mut [u16]) -> Result<String, Fault>
    requires room { room (policy_of maker.old) ≤ length words.old }
    ensures cases { MatchResult result
        (λ s. Printed (policy_of maker.old) (string_bytes s))
        (NotPrinted (policy_of maker.old)) }
{
    let size = maker.make(words)?;
    let mut lines = String::new(heap);
    Table::new(&words[..size]).print(&mut lines)?;
    Ok(lines)
}

// The lines of the text's table.
fn lines(heap: Global, text: Text) -> Result<String, Fault>
    ensures cases { MatchResult result (λ s. Printed (meaning (nodes_of text)) (string_bytes s)) (NotPrinted (meaning (nodes_of text))) }
{
    let mut maker = Maker::new(heap, text)?;
    let mut words = vec![in heap; 0u16; maker.room()]?;
    printed(heap, &mut maker, words.as_mut_slice())
}

pub fn answer(heap: Global, writing: Writing, input: &[u8]) -> Result<String, Refusal>
    ensures cases { MatchResult result
        (λ s. Answered (read_as writing input.now) (string_bytes s))
        (Rejected (read_as writing input.now)) }
{
    let text = read(heap, writing, SWITCHES, input)?;
    Ok(lines(heap, text)?)
}

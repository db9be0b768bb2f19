// Reading a header.
ghost use Rattle.std.specs.Prelude.{◌≡◌};
ghost use Rattle.notation.specs.declared.marks.Mark.TheVariants.{Newline};
ghost use Rattle.notation.specs.Marks.{parts};
ghost use Rattle.script.specs.Described.{layout_of};
ghost use Rattle.script.specs.Scripts.{Headed, Opened};
ghost use Rattle.script.specs.Scripts as spec;

use super::Header;
use super::description::Description;
use super::draft::{Draft, Went};
use super::lines::Lines;
use notation::{Mark, Refusal, Words, cut};
use octets::Fault;
use std::alloc::Global;

fn refused(fault: Fault, line: usize) -> Refusal
    ensures value { result ≡ spec.refusal fault line }
{
    Refusal {
        fault,
        line: Some(line),
    }
}

// What stands before `start`, which is in this line.
fn begin<'a>(
    heap: Global,
    draft: Draft<'a>,
    line: usize,
    rest: &'a [u8],
) -> Result<Option<Header<'a>>, Refusal>
    ensures value { Headed result (spec.started_at (spec.sofar_of draft.entry) line rest.now) }
{
    let Draft { description, texts } = draft;
    let cables = description
        .bytes(heap)
        .map_err(|fault| refused(fault, line))?;
    Ok(Some(Header {
        cables,
        texts,
        line,
        rest,
    }))
}

// The lines behind `net`.
fn describe<'a>(
    heap: Global,
    description: Description,
    mut lines: Lines<'a>,
) -> Result<Option<Header<'a>>, Refusal>
    ensures value { Headed result (spec.describing lines.entry.before (spec.opened (layout_of description)) (parts Newline lines.entry.left.now)) }
{
    let mut draft = Draft {
        description,
        texts: Vec::new(heap),
    };
    while let Some((line, bytes)) = lines.next() {
        match draft
            .line(line, bytes)
            .map_err(|fault| refused(fault, line))?
        {
            Went::On => {}
            Went::Begun => return begin(heap, draft, line, lines.left()),
        }
    }
    Ok(None)
}

// A line before `net`: blank, or `net`.
#[tactic(auto, unfolding(notation::specs::Kinds::same_word))]
fn first(heap: Global, bytes: &[u8]) -> Result<Option<Description>, Fault>
    ensures value { Opened result (spec.first_in bytes.now) }
{
    let (front, _) = cut(bytes, Mark::Hash);
    let mut words = Words::new(front);
    let Some(word) = words.next() else {
        return Ok(None);
    };
    if word != b"net".as_slice() {
        return Err(Fault::Form);
    }
    let description = Description::net(heap, &mut words)?;
    Ok(Some(description))
}

// The header of a script, or the first fault and its line. A script without `start` has none, which is no fault.
pub fn read<'a>(heap: Global, script: &'a [u8]) -> Result<Option<Header<'a>>, Refusal>
    ensures value { Headed result (spec.header_in script.now) }
{
    let mut lines = Lines::new(script);
    while let Some((line, bytes)) = lines.next() {
        match first(heap, bytes) {
            Ok(None) => {}
            Ok(Some(description)) => return describe(heap, description, lines),
            Err(fault) => return Err(refused(fault, line)),
        }
    }
    Ok(None)
}

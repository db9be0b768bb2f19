// Reading a line behind `start`.
ghost use Rattle.std.specs.Prelude.{◌≡◌, []};
ghost use Rattle.notation.specs.Words.{left};
ghost use Rattle.script.specs.Lines as spec;
ghost use Rattle.script.specs.Readers.{Says, told_as};

use super::{Line, TextLine};
use crate::numbers::number;
use crate::step;
use crate::step::Verb;
use notation::{Mark, Words, cut};
use octets::Fault;
use std::alloc::Global;

// What stands behind the word `text`.
pub(crate) fn text<'a>(words: &mut Words<'a>) -> Result<TextLine<'a>, Fault>
    ensures value { told_as spec.text_of result [] ≡ spec.text_in words.old.bytes.now (left words.old) }
{
    let switch = number(words)?;
    let nodes = words.rest();
    Ok(TextLine { switch, nodes })
}

#[tactic(auto, unfolding(notation::specs::Kinds::same_word))]
fn of_words<'a>(heap: Global, word: &[u8], words: &mut Words<'a>) -> Result<Line<'a>, Fault>
    ensures value { Says spec.line_of result [] (spec.worded word.now words.old.bytes.now (left words.old)) }
{
    if word == b"text".as_slice() {
        return Ok(Line::Text(text(words)?));
    }
    let verb = Verb::try_from(word)?;
    Ok(Line::Step(step::read(heap, verb, words)?))
}

// A line that can't be understood is the fault 1. Memory is asked for by raw bytes alone.
pub fn read<'a>(heap: Global, bytes: &'a [u8]) -> Result<Line<'a>, Fault>
    ensures value { Says spec.line_of result [] (spec.line_in bytes.now) }
{
    let (line, _) = cut(bytes, Mark::Hash);
    let mut words = Words::new(line);
    let Some(word) = words.next() else {
        return Ok(Line::Nothing);
    };
    of_words(heap, word, &mut words)
}

// The lines between `net` and `start`.
ghost use Rattle.std.specs.Prelude.{◌≡◌, Some};
ghost use Rattle.notation.specs.Words.{left};
ghost use Rattle.script.specs.Scripts.{Goes};
ghost use Rattle.script.specs.Scripts as spec;

use super::Placed;
use super::description::Description;
use super::headings::Heading;
use crate::line::text;
use crate::numbers::end;
use notation::{Mark, Words, cut};
use octets::Fault;

// What was described so far, and the texts so far.
#[derive(Drop)]
pub(crate) struct Draft<'a> {
    pub description: Description,
    pub texts: Vec<Placed<'a>>,
}

// The header goes on, or it has come to `start`.
#[derive(Clone, Copy, Debug, PartialEq, Eq)]
pub(crate) enum Went {
    On,
    Begun,
}

impl<'a> Draft<'a> {
    // The words behind the first one of a line.
    fn words(&mut self, line: usize, heading: Heading, words: &mut Words<'a>) -> Result<Went, Fault>
        ensures value { Goes result self.new (spec.of_heading line (spec.sofar_of self.old) (Some heading) words.old.bytes.now (left words.old)) }
    {
        match heading {
            Heading::Net => Err(Fault::Form),
            Heading::Cable => {
                self.description.cable(words)?;
                Ok(Went::On)
            }
            Heading::Outside => {
                self.description.outside(words)?;
                Ok(Went::On)
            }
            Heading::Text => {
                let text = text(words)?;
                self.texts.push(Placed { line, text })?;
                Ok(Went::On)
            }
            Heading::Start => {
                end(words)?;
                Ok(Went::Begun)
            }
        }
    }

    // A line. After a fault the draft is of no more use.
    pub(crate) fn line(&mut self, line: usize, bytes: &'a [u8]) -> Result<Went, Fault>
        ensures value { Goes result self.new (spec.line_in line (spec.sofar_of self.old) bytes.now) }
    {
        let (front, _) = cut(bytes, Mark::Hash);
        let mut words = Words::new(front);
        let Some(word) = words.next() else {
            return Ok(Went::On);
        };
        let heading = Heading::try_from(word)?;
        self.words(line, heading, &mut words)
    }
}

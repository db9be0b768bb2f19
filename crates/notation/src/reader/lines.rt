// Reading line by line.
ghost use Rattle.std.specs.Prelude.{◌≡◌};
ghost use Rattle.text.specs.Texts.{drafted};
ghost use Rattle.notation.specs.Notation.{line_in, text_in};
ghost use Rattle.notation.specs.Readers.{sofar, grown, outcome};

use super::{Reader, Refusal};
use crate::marks::{Mark, cut};
use crate::parts::Parts;
use crate::used::Used;
use octets::Fault;
use text::{Draft, Text};

impl Reader {
    // The nodes of a line, up to its comment.
    fn line(&mut self, bytes: &[u8]) -> Result<(), Fault>
        ensures value { grown result self.new ≡ line_in (sofar self.old) bytes.now }
    {
        let (nodes, _) = cut(bytes, Mark::Hash);
        for piece in Parts::new(nodes, Mark::Semicolon) {
            self.piece(piece)?;
        }
        Ok(())
    }
}

// The text that the bytes write behind the nodes of a draft, of which none counts as used.
pub fn read(draft: Draft, bytes: &[u8]) -> Result<Text, Refusal>
    ensures value { outcome result ≡ text_in (drafted draft) bytes.now }
{
    let mut reader = Reader {
        draft,
        used: Used::none(),
    };
    for (place, line) in Parts::new(bytes, Mark::Newline).enumerate() {
        reader.line(line).map_err(|fault| Refusal {
            fault,
            line: Some(place + 1),
        })?;
    }
    reader.draft.finish().ok_or(Refusal::from(Fault::Range))
}

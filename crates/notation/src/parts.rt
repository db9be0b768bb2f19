// The parts of bytes that marks end.
ghost use Rattle.std.specs.Prelude.{◌≡◌};
ghost use Rattle.std.specs.Iterator.{YieldsFirstRef, item_count};
ghost use Rattle.notation.specs.Marks.{parts};
ghost use Rattle.notation.specs.Parts.{parts_left};

use crate::marks::{Mark, cut};

// What is behind the last mark is one more part, unless it is empty.
#[derive(Drop)]
pub struct Parts<'a> {
    bytes: &'a [u8],
    mark: Mark,
}

impl<'a> Parts<'a> {
    pub fn new(bytes: &'a [u8], mark: Mark) -> Parts<'a>
        ensures value { parts_left result ≡ parts mark bytes.now }
    {
        Parts { bytes, mark }
    }
}

impl<'a> Iterator for Parts<'a> {
    type Item = &'a [u8];

    ghost next_gives = { YieldsFirstRef parts_left };

    ghost remaining = { item_count parts_left };

    fn next(&mut self) -> Option<&'a [u8]> {
        if self.bytes.is_empty() {
            return None;
        }
        let (part, rest) = cut(self.bytes, self.mark);
        self.bytes = rest;
        Some(part)
    }
}

// The lines of a script with their numbers, from 1.
ghost use Rattle.std.specs.Prelude.{◌≡◌, ◌+◌, ◌^◌, ◌<◌, [], ◌∷◌, length, MatchOption};
ghost use Rattle.notation.specs.declared.marks.Mark.TheVariants.{Newline};
ghost use Rattle.notation.specs.Marks.{parts};

use notation::{Mark, cut};

// The bytes behind the lines that were read, and how many these are.
#[derive(Drop)]
pub(crate) struct Lines<'a> {
    left: &'a [u8],
    before: usize,
    ghost few: { before + length left.now < 2 ^ 64 },
}

impl<'a> Lines<'a> {
    pub(crate) fn new(script: &'a [u8]) -> Lines<'a>
        ensures left { result.left.now ≡ script.now }
        ensures before { result.before ≡ 0 }
    {
        Lines {
            left: script,
            before: 0,
        }
    }

    // The bytes of the lines that were not read yet.
    pub(crate) fn left(&self) -> &'a [u8]
        ensures value { result.now ≡ self.now.left.now }
    {
        self.left
    }

    // The next line, with its number.
    pub(crate) fn next(&mut self) -> Option<(usize, &'a [u8])>
        ensures cases { MatchOption result
            (parts Newline self.old.left.now ≡ [])
            (λ line. (line.0 ≡ self.old.before + 1) × (self.new.before ≡ self.old.before + 1)
            × (parts Newline self.old.left.now ≡ line.1.now ∷ parts Newline self.new.left.now)
            × (length self.new.left.now < length self.old.left.now)) }
    {
        if self.left.is_empty() {
            return None;
        }
        let (line, rest) = cut(self.left, Mark::Newline);
        self.left = rest;
        self.before += 1;
        Some((self.before, line))
    }
}

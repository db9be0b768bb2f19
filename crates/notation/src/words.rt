// The words of a line, one after the other.
ghost use Rattle.std.specs.Prelude.{◌≡◌, ⊤, not, drop};
ghost use Rattle.std.specs.Iterator.{MakesProgress, YieldsFirstRef, item_count};
ghost use Rattle.notation.specs.declared.marks.Mark.TheVariants.{Blank};
ghost use Rattle.notation.specs.Marks.{behind};
ghost use Rattle.notation.specs.Words.{some, first, words_of, left, unblanked, word_in};

use crate::marks::{Mark, cut};

#[derive(Drop)]
pub struct Words<'a> {
    bytes: &'a [u8],
}

impl<'a> Words<'a> {
    #[tactic(auto, unfolding(crate::specs::Words::left))]
    pub fn new(bytes: &'a [u8]) -> Words<'a>
        ensures bytes { result.bytes.now ≡ bytes.now }
        ensures words { left result ≡ words_of bytes.now }
    {
        Words { bytes }
    }

    // The bytes that were not read yet.
    pub fn rest(&self) -> &'a [u8]
        ensures value { result.now ≡ self.now.bytes.now }
    {
        self.bytes
    }

    // Whether no word is left.
    #[tactic(auto, unfolding(crate::specs::Words::left))]
    pub fn is_done(&self) -> bool
        ensures value { result ≡ not (some (left self.now)) }
    {
        Words::new(self.bytes).next().is_none()
    }
}

// The blank behind a word is read with it.
impl<'a> Iterator for Words<'a> {
    type Item = &'a [u8];

    ghost next_gives = { YieldsFirstRef left };

    ghost remaining = { item_count left };

    fn next(&mut self) -> Option<&'a [u8]>
        ensures steps { YieldsFirstRef left self.old result self.new }
        ensures goes { MakesProgress (λ _. ⊤) (item_count left) self.old result self.new }
        ensures word { word_in result ≡ first (left self.old) }
        ensures after { left self.new ≡ drop 1 (left self.old) }
        ensures bytes { self.new.bytes.now ≡ behind Blank (unblanked self.old.bytes.now) }
    {
        while !self.bytes.is_empty() {
            let (word, rest) = cut(self.bytes, Mark::Blank);
            self.bytes = rest;
            if !word.is_empty() {
                return Some(word);
            }
        }
        None
    }
}

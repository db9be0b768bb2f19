// The outs that stand in words: the settings of each copy.
ghost use Rattle.std.specs.Prelude.{◌≡◌, ◌≤◌, true, drop, length};
ghost use Rattle.std.specs.Iterator.{YieldsFirstBy, item_count};
ghost use Rattle.table.specs.Words.{settings_of, outs_from, outs_in, outs_in_from, past_from, past_outs, number};

use crate::pairs::Pairs;

// Other words may follow the outs that are left.
#[derive(Clone, Copy)]
pub struct Outs<'a> {
    left: u16,
    words: &'a [u16],
    ghost few: { left ≤ 16 },
    ghost there: { outs_in_from left words.now ≡ true },
}

impl<'a> Outs<'a> {
    // The outs whose number is in front, and the words behind them.
    pub(crate) fn split(words: &'a [u16]) -> (Outs<'a>, &'a [u16])
        requires there { outs_in words.now ≡ true }
        ensures left { result.0.left ≡ number words.now }
        ensures outs { result.0.words.now ≡ drop 1 words.now }
        ensures rest { result.1.now ≡ past_outs words.now }
    {
        let outs = Outs {
            left: words[0],
            words: &words[1..],
        };
        (outs, outs.end())
    }

    // How many they are.
    pub(crate) fn number(self) -> u8
        ensures { result ≡ length (outs_from self.entry.left self.entry.words.now) }
    {
        self.count() as u8
    }

    // The words behind the outs.
    fn end(self) -> &'a [u16]
        ensures { result.now ≡ past_from self.entry.left self.entry.words.now }
    {
        let mut rest = self.words;
        for _i in 0..self.left {
            rest = Pairs::split(rest).1;
        }
        rest
    }
}

impl<'a> Iterator for Outs<'a> {
    type Item = Pairs<'a>;

    ghost next_gives = { YieldsFirstBy (λ o. settings_of o.words.now) (λ s. outs_from s.left s.words.now) };

    ghost remaining = { item_count (λ s. outs_from s.left s.words.now) };

    fn next(&mut self) -> Option<Pairs<'a>> {
        if self.left == 0 {
            return None;
        }
        let (out, rest) = Pairs::split(self.words);
        *self = Outs {
            left: self.left - 1,
            words: rest,
        };
        Some(out)
    }
}

// The pairs that stand in words: the wants of a rule, or the settings of an out.
ghost use Rattle.std.specs.Prelude.{◌≡◌, ◌≤◌, true, length};
ghost use Rattle.std.specs.Iterator.{YieldsFirst, item_count};
ghost use Rattle.table.specs.Words.{pairs_of, are_pairs, few, few_in, past_few};

use packet::Pair;

// Each pair has two words.
#[derive(Clone, Copy)]
pub struct Pairs<'a> {
    words: &'a [u16],
    ghost few: { length words.now ≤ 16 },
    ghost there: { are_pairs words.now ≡ true },
}

impl<'a> Pairs<'a> {
    // The pairs whose number is in front, and the words behind them.
    pub(crate) fn split(words: &'a [u16]) -> (Pairs<'a>, &'a [u16])
        requires there { few_in words.now ≡ true }
        ensures pairs { result.0.words.now ≡ few words.now }
        ensures rest { result.1.now ≡ past_few words.now }
    {
        let (pairs, rest) = words[1..].split_at(2 * usize::from(words[0]));
        (Pairs { words: pairs }, rest)
    }

    // How many they are.
    pub(crate) fn number(self) -> u8
        ensures { result ≡ length (pairs_of self.entry.words.now) }
    {
        self.count() as u8
    }
}

impl<'a> Iterator for Pairs<'a> {
    type Item = Pair;

    ghost next_gives = { YieldsFirst (λ s. pairs_of s.words.now) };

    ghost remaining = { item_count (λ s. pairs_of s.words.now) };

    fn next(&mut self) -> Option<Pair> {
        let [field, value, rest @ ..] = self.words else {
            return None;
        };
        self.words = rest;
        Some(Pair {
            field: *field as u8,
            value: *value,
        })
    }
}

// The rules of a table, one after the other.
ghost use Rattle.std.specs.Iterator.{YieldsFirstBy, item_count};
ghost use Rattle.table.specs.Views.{rules_in, rule_of};

use crate::outs::Outs;
use crate::pairs::Pairs;
use crate::tables::Table;

// What a packet has to meet, and the settings of each of its copies.
#[derive(Clone, Copy)]
pub struct Rule<'a> {
    pub wants: Pairs<'a>,
    pub outs: Outs<'a>,
}

// The rules that are left are a table themselves.
#[derive(Clone, Copy)]
pub struct Rules<'a> {
    pub(crate) left: Table<'a>,
}

impl<'a> Iterator for Rules<'a> {
    type Item = Rule<'a>;

    ghost next_gives = { YieldsFirstBy rule_of (λ s. rules_in s.left) };

    ghost remaining = { item_count (λ s. rules_in s.left) };

    fn next(&mut self) -> Option<Rule<'a>> {
        let words = self.left.words();
        if words.is_empty() {
            return None;
        }
        let (wants, rest) = Pairs::split(words);
        let (outs, rest) = Outs::split(rest);
        self.left = Table::of(rest);
        Some(Rule { wants, outs })
    }
}

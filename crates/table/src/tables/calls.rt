// How a table is made and used.
ghost use Rattle.std.specs.Prelude.{◌≡◌, ◌++◌, length, string_bytes, MatchResult, OnOk};
ghost use Rattle.packet.specs.Copies.{listing};
ghost use Rattle.packet.specs.Table.{sent};
ghost use Rattle.table.specs.Bytes.{table_bytes};
ghost use Rattle.table.specs.Good.{ReadsBack, WritesBack};
ghost use Rattle.table.specs.Lines.{table_text};
ghost use Rattle.table.specs.Views.{rules_in};
ghost use Rattle.table.specs.Words.{Sound, sound, kept};

use super::Table;
use crate::rules::Rules;
use crate::{matching, sound, writes};
use packet::{Copies, Packet};
use std::alloc::AllocError;

impl<'a> Table<'a> {
    // The table that stands in the words. Words that are none give a table without rules.
    #[tactic(auto, using(crate::proofs::Reading::sound_none))]
    pub fn new(words: &'a [u16]) -> Table<'a>
        ensures value { result.words.now ≡ kept words.now }
    {
        if !sound::is_table(words) {
            return Table { words: &[] };
        }
        Table { words }
    }

    // The table that stands in words of which this is known, so that none of them is looked at.
    pub fn of(words: &'a [u16]) -> Table<'a>
        requires sound { Sound words.now }
        ensures value { result.words.now ≡ words.now }
    {
        Table { words }
    }

    pub fn words(self) -> &'a [u16]
        ensures value { result.now ≡ self.entry.words.now }
        ensures sound { Sound result.now }
    {
        self.words
    }

    // The rules, the first one first.
    pub fn rules(self) -> Rules<'a>
        ensures value { rules_in result.left ≡ rules_in self.entry }
    {
        Rules { left: self }
    }

    // The copies that the first rule gives whose wants the packet meets, each once, in the order of its outs.
    #[tactic(auto, unfolding(packet::specs::Table::outputs, packet::specs::Packet::once))]
    pub fn send(self, p: Packet) -> Copies<16>
        ensures value { listing result ≡ sent (rules_in self.entry) p.fields }
    {
        match matching::first_match(self, p) {
            Some(rule) => matching::copies(rule.outs, p),
            None => Copies::none(),
        }
    }

    // How many rules there are.
    pub fn rule_count(self) -> usize
        ensures value { result ≡ length (rules_in self.entry) }
    {
        self.rules().count()
    }

    // Puts the table's bytes behind what is there, or changes nothing where no memory is left.
    pub fn write(self, out: &mut Vec<u8>) -> Result<(), AllocError>
        ensures cases { MatchResult result
            (λ _. out.new.items ≡ out.old.items ++ table_bytes (rules_in self.entry))
            (λ _. out.new.items ≡ out.old.items) }
    {
        writes::table(out, self)
    }

    // Puts the printed lines of the rules behind the text.
    pub fn print(self, text: &mut String) -> Result<(), AllocError>
        ensures made { OnOk result (string_bytes text.new ≡ string_bytes text.old ++ table_text (rules_in self.entry)) }
    {
        let table = self;
        write!(text, "{table}")
    }
}

// What tables and their words have to do with each other.
pub fn layout_stands()
    ensures reads_back { ReadsBack }
    ensures writes_back { WritesBack }
{}

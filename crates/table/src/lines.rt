// The printed lines of a table.
ghost use Rattle.std.specs.Prelude.{Some, codes};
ghost use Rattle.table.specs.Lines.{listed, setting_text, outs_text, rule_text, table_text};
ghost use Rattle.table.specs.Views.{settings_in, outs_in, rule_of, rules_in};

use crate::outs::Outs;
use crate::pairs::Pairs;
use crate::rules::Rule;
use crate::tables::Table;
use std::fmt;

// Pairs with blanks between them, or a word where there is none.
#[derive(Clone, Copy)]
struct Listed<'a> {
    none: &'a str,
    pairs: Pairs<'a>,
}

impl fmt::Display for Listed<'_> {
    ghost output = { λ l. Some (listed l.none.now (codes " ") setting_text (settings_in l.pairs)) };

    fn fmt<W: fmt::Write>(&self, f: &mut fmt::Formatter<W>) -> fmt::Result {
        let mut pairs = self.pairs;
        let Some(first) = pairs.next() else {
            return f.write_str(self.none);
        };
        write!(f, "{first}")?;
        for pair in pairs {
            write!(f, " {pair}")?;
        }
        Ok(())
    }
}

// Outs with bars between them.
impl fmt::Display for Outs<'_> {
    ghost output = { λ os. Some (outs_text (outs_in os)) };

    fn fmt<W: fmt::Write>(&self, f: &mut fmt::Formatter<W>) -> fmt::Result {
        let mut outs = *self;
        let Some(pairs) = outs.next() else {
            return f.write_str("drop");
        };
        let first = Listed {
            none: "same",
            pairs,
        };
        write!(f, "{first}")?;
        for pairs in outs {
            let out = Listed {
                none: "same",
                pairs,
            };
            write!(f, " | {out}")?;
        }
        Ok(())
    }
}

impl fmt::Display for Rule<'_> {
    ghost output = { λ r. Some (rule_text (rule_of r)) };

    fn fmt<W: fmt::Write>(&self, f: &mut fmt::Formatter<W>) -> fmt::Result {
        let wants = Listed {
            none: "any",
            pairs: self.wants,
        };
        let outs = self.outs;
        write!(f, "{wants} -> {outs}")
    }
}

// A rule to a line.
impl fmt::Display for Table<'_> {
    ghost output = { λ t. Some (table_text (rules_in t)) };

    fn fmt<W: fmt::Write>(&self, f: &mut fmt::Formatter<W>) -> fmt::Result {
        for rule in self.rules() {
            writeln!(f, "{rule}")?;
        }
        Ok(())
    }
}

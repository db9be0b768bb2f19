// A text and its prescribed table: what a plan has for one switch. What holds of every part stands in its type.
ghost use Rattle.std.specs.Prelude.{◌≡◌, true};
ghost use Rattle.text.specs.Texts.{nodes_of};
ghost use Rattle.text.specs.Trees.{meaning};
ghost use Rattle.prescribed.specs.Table.{same_list, same_rule, table_of};
ghost use Rattle.prescribed.specs.Fit.{fault_of};
ghost use Rattle.table.specs.Words.{rules_of, sound};
ghost use Rattle.plan.specs.Values.{all_small};

use text::Text;

mod calls;
mod scratch;

pub(crate) use scratch::Scratch;

#[derive(Drop)]
pub struct Part {
    text: Text,
    words: Vec<u16>,
    ghost small: { all_small (nodes_of text) ≡ true },
    ghost fits: { fault_of (meaning (nodes_of text)) ≡ 0 },
    ghost sound: { sound words.items ≡ true },
    ghost table: { same_list same_rule (rules_of words.items) (table_of (meaning (nodes_of text))) ≡ true },
}

// A maker has a text and all that it needs to make the text's table in lent words.
ghost use Rattle.std.specs.Prelude.{◌≡◌, true};
ghost use Rattle.text.specs.Texts.{nodes_of};
ghost use Rattle.text.specs.Trees.{meaning};
ghost use Rattle.meaning.specs.Evaluators.{text_of};
ghost use Rattle.prescribed.specs.Table.{pairs_of, same_list, same_want, unnamed};
ghost use Rattle.leaves.specs.Pairs.{pairs_in};

use leaves::Pairs;
use meaning::Evaluator;
use octets::Fault;
use packet::Packet;

mod calls;
mod fault;
mod whole;

#[derive(Drop)]
pub struct Maker {
    evaluator: Evaluator,
    pairs: Pairs,
    blank: Packet,
    ghost pairs_of: { same_list same_want (pairs_in pairs) (pairs_of (meaning (nodes_of (text_of evaluator)))) ≡ true },
    ghost blank_of: { blank.fields ≡ unnamed (meaning (nodes_of (text_of evaluator))) },
}

// Why no table was made.
#[derive(Clone, Copy, Debug, PartialEq, Eq)]
pub enum NoTable {
    // The text doesn't fit.
    Refused(Fault),
    // Too few words were lent.
    Short,
}

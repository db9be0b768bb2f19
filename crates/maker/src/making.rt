// The recursion over the pairs: Y is written into the lent table, and N into the part behind it.
ghost use Rattle.std.specs.Prelude.{◌≡◌, length, drop};
ghost use Rattle.text.specs.Texts.{nodes_of};
ghost use Rattle.text.specs.Trees.{meaning};
ghost use Rattle.meaning.specs.Evaluators.{text_of};
ghost use Rattle.leaves.specs.Pairs.{wants_of};
ghost use Rattle.maker.specs.Knowing.{known_of};
ghost use Rattle.maker.specs.Making.{MadeOf};
ghost use Rattle.maker.specs.Tasks.{Task};

use crate::join::join;
use crate::known::Known;
use crate::leaf::leaf;
use crate::size::Size;
use meaning::Evaluator;
use octets::Fault;
use packet::Pair;

// The table of the pairs from i on, where some values are known. None is a table on the way that is too long.
pub fn make(
    evaluator: &mut Evaluator,
    pairs: &[Pair],
    i: usize,
    known: &Known,
    out: &mut [u16],
) -> Result<Option<Size>, Fault>
    requires task { Task (meaning (nodes_of (text_of evaluator.old))) pairs.now i known.now (length out.old) }
    ensures text { text_of evaluator.new ≡ text_of evaluator.old }
    ensures made { MadeOf (meaning (nodes_of (text_of evaluator.old))) (wants_of (drop i pairs.now)) (known_of known.now) out.new result }
{
    if i >= pairs.len() {
        return leaf(evaluator, known, out);
    }
    let pair = pairs[i];
    if known.knows(pair.field) {
        return make(evaluator, pairs, i + 1, known, out);
    }
    let with = known.with(pair);
    let Some(yes) = make(evaluator, pairs, i + 1, &with, out)? else {
        // What is left is looked at for too many copies alone.
        return match make(evaluator, pairs, i + 1, known, out) {
            Ok(_) => Ok(None),
            Err(fault) => Err(fault),
        };
    };
    let Some(no) = make(evaluator, pairs, i + 1, known, &mut out[yes.words..])? else {
        return Ok(None);
    };
    Ok(join(pair.field, yes, no, out))
}

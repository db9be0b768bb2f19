// Two texts: whether they do the same, and if not, on which packet.
ghost use Rattle.std.specs.Result.{MatchResult};
ghost use Rattle.text.specs.Texts.{nodes_of};
ghost use Rattle.text.specs.Trees.{meaning};
ghost use Rattle.compare.specs.Compared.{Answers, NotCompared};

use crate::answer::Difference;
use crate::sets::listed;
use crate::tables::{difference, table_of};
use octets::Fault;
use std::alloc::Global;
use table::Table;
use text::Text;

// None where they do the same to every packet.
pub fn compare(heap: Global, first: Text, second: Text) -> Result<Option<Difference>, Fault>
    ensures cases { MatchResult result (Answers (meaning (nodes_of first)) (meaning (nodes_of second))) (NotCompared (meaning (nodes_of first)) (meaning (nodes_of second))) }
{
    let one = table_of(heap, first)?;
    let two = table_of(heap, second)?;
    let first = Table::new(one.as_slice());
    let second = Table::new(two.as_slice());
    let Some(packet) = difference(heap, first, second)? else {
        return Ok(None);
    };
    let ours = listed(heap, first.send(packet).as_slice())?;
    let theirs = listed(heap, second.send(packet).as_slice())?;
    Ok(Some(Difference {
        packet,
        first: ours,
        second: theirs,
    }))
}

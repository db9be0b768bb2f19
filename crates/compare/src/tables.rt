// The tables of texts, and on which packet two tables differ.
ghost use Rattle.std.specs.Prelude.{◌≡◌, ◌≤◌, length, take, IfOk, MatchResult};
ghost use Rattle.text.specs.Texts.{nodes_of};
ghost use Rattle.text.specs.Trees.{meaning};
ghost use Rattle.table.specs.Views.{rules_in};
ghost use Rattle.maker.specs.Makers.{policy_of, room};
ghost use Rattle.compare.specs.Tables.{Stands, Unfit, Found};

use maker::Maker;
use octets::Fault;
use packet::Packet;
use std::alloc::{AllocError, Global};
use table::Table;
use text::Text;
use trees::Trees;

// The words of the text's table.
pub fn table_of(heap: Global, text: Text) -> Result<Vec<u16>, Fault>
    ensures cases { MatchResult result (λ v. Stands (meaning (nodes_of text)) v.items) (Unfit (meaning (nodes_of text))) }
{
    let mut maker = Maker::new(heap, text)?;
    let mut words = vec![in heap; 0u16; maker.room()]?;
    let size = maker.make(words.as_mut_slice())?;
    words.truncate(size);
    Ok(words)
}

// The smallest packet of which they send different copies.
pub fn difference(
    heap: Global,
    first: Table<'_>,
    second: Table<'_>,
) -> Result<Option<Packet>, AllocError>
    ensures made { IfOk result (Found (rules_in first.entry) (rules_in second.entry)) }
{
    let mut trees = Trees::new(heap);
    let a = trees.add(first)?;
    let b = trees.add(second)?;
    trees.first_difference(a, b)
}

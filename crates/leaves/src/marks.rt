// Which nodes lie under the last one.
ghost use Rattle.std.specs.Prelude.{◌≡◌, length};
ghost use Rattle.meaning.specs.Kept.{Earlier};
ghost use Rattle.text.specs.Texts.{nodes_of};
ghost use Rattle.leaves.specs.Under.{operands, marking, Under};

use text::{Node, Text};

// Marks the nodes that n is built from.
fn mark(n: Node, row: &mut [bool])
    requires within { Earlier (length row.old) n }
    ensures after { row.new ≡ marking (operands n) row.old }
{
    match n {
        Node::Always | Node::Is(_, _) | Node::Put(_, _) => {}
        Node::Not(a) | Node::Keep(a) => row[a as usize] = true,
        Node::Both(a, b) | Node::Either(a, b) | Node::And(a, b) | Node::Then(a, b) => {
            row[a as usize] = true;
            row[b as usize] = true;
        }
    }
}

// Operands are earlier nodes, so one walk from the last node to the first finds them all.
pub fn under(text: &Text) -> [bool; 512]
    ensures marks { Under (nodes_of text.now) result }
{
    let nodes = text.nodes();
    let mut row = [false; 512];
    row[nodes.len() - 1] = true;
    for k in (0..nodes.len()).rev() {
        if row[k] {
            mark(nodes[k], &mut row);
        }
    }
    row
}

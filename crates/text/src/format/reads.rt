// Reading a text from bytes, to its end or its first fault.
ghost use Rattle.std.specs.Prelude.{◌≡◌, ◌≤◌, []};
ghost use Rattle.octets.specs.Readers.{told, told_as, rest};
ghost use Rattle.text.specs.Format as spec;
ghost use Rattle.text.specs.Texts.{drafted, nodes_of, assignment_of};

use crate::node::{Node, Sort};
use crate::texts::{Assigned, Draft, MOST, Text};
use octets::{Cursor, Fault};

fn operand(c: &mut Cursor, draft: &Draft, want: Sort) -> Result<u16, Fault>
    ensures value { told result (rest c.new) ≡ spec.operand want (drafted draft.now) (rest c.old) }
{
    let k = c.word()?;
    if !draft.has(want, k) {
        return Err(Fault::Operand);
    }
    Ok(k)
}

// The node that follows those of the draft.
fn node(c: &mut Cursor, draft: &Draft) -> Result<Node, Fault>
    ensures value { told result (rest c.new) ≡ spec.node (drafted draft.now) (rest c.old) }
{
    Ok(match c.byte()? {
        1 => Node::Always,
        2 => Node::Is(c.below(8)?, c.word()?),
        3 => Node::Both(
            operand(c, draft, Sort::Test)?,
            operand(c, draft, Sort::Test)?,
        ),
        4 => Node::Either(
            operand(c, draft, Sort::Test)?,
            operand(c, draft, Sort::Test)?,
        ),
        5 => Node::Not(operand(c, draft, Sort::Test)?),
        6 => Node::Keep(operand(c, draft, Sort::Test)?),
        7 => Node::Put(c.below(8)?, c.word()?),
        8 => Node::And(
            operand(c, draft, Sort::Policy)?,
            operand(c, draft, Sort::Policy)?,
        ),
        9 => Node::Then(
            operand(c, draft, Sort::Policy)?,
            operand(c, draft, Sort::Policy)?,
        ),
        _ => return Err(Fault::Form),
    })
}

fn nodes(c: &mut Cursor, mut draft: Draft, count: u16) -> Result<Draft, Fault>
    requires few { count ≤ 512 }
    ensures value { told_as drafted result (rest c.new) ≡ spec.nodes count [] (rest c.old) }
{
    draft.clear();
    for _i in 0..count {
        let n = node(c, &draft)?;
        draft.push(n);
    }
    Ok(draft)
}

// The nodes of a text, with their number in front. They are written over what the draft holds.
pub fn read_nodes(c: &mut Cursor, draft: Draft) -> Result<Text, Fault>
    ensures value { told_as nodes_of result (rest c.new) ≡ spec.listed (rest c.old) }
{
    let Ok(count) = c.word() else {
        return Err(Fault::Form);
    };
    if count < 1 || usize::from(count) > MOST {
        return Err(Fault::Range);
    }
    let draft = nodes(c, draft, count)?;
    Ok(draft.finish().unwrap())
}

// A text for one of so many switches. It is written over what the draft holds.
pub fn read(c: &mut Cursor, draft: Draft, switches: u8) -> Result<Assigned, Fault>
    ensures value { told_as assignment_of result (rest c.new) ≡ spec.text switches (rest c.old) }
{
    let switch = c.below(switches)?;
    let text = read_nodes(c, draft)?;
    Ok(Assigned { switch, text })
}

// A text with nothing behind it.
pub fn read_alone(draft: Draft, switches: u8, bytes: &[u8]) -> Result<Assigned, Fault>
    ensures value { told_as assignment_of result [] ≡ spec.alone switches bytes.now }
{
    let mut c = Cursor::new(bytes);
    let text = read(&mut c, draft, switches)?;
    c.end()?;
    Ok(text)
}

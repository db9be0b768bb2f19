// Reading the bytes of a change.
ghost use Rattle.std.specs.Prelude.{◌≡◌, [], length, IfOk};
ghost use Rattle.octets.specs.Readers.{rest};
ghost use Rattle.plan.specs.Changes as spec;
ghost use Rattle.plan.specs.Laws.{GoodFor};
ghost use Rattle.plan.specs.Views.{plan_of, slots_of, texts_of, Says};

use crate::builder::Builder;
use crate::plans::Plan;
use octets::{Cursor, Fault};
use std::alloc::Global;
use text::{Draft, format};

// One text. Its switch is tested before its nodes are read.
fn one(c: &mut Cursor, builder: &mut Builder) -> Result<(), Fault>
    ensures value { Says (λ _. slots_of builder.new) result (rest c.new) (spec.text (slots_of builder.old) (rest c.old)) }
{
    let draft = Draft::new(builder.scratch.heap)?;
    let switch = c.byte()?;
    builder.claim(switch)?;
    let text = format::read_nodes(c, draft)?;
    builder.put(switch, text)
}

// Texts until the bytes end, of which there can be no more than switches.
fn texts(c: &mut Cursor, builder: &mut Builder, switches: u8) -> Result<(), Fault>
    ensures value { Says (λ _. slots_of builder.new) result (rest c.new) (spec.texts switches (slots_of builder.old) (rest c.old)) }
{
    for _i in 0..switches {
        if c.is_done() {
            return Ok(());
        }
        one(c, builder)?;
    }
    if c.is_done() {
        Ok(())
    } else {
        Err(Fault::Range)
    }
}

// The plan of a change for so many switches: its texts, and their tables.
pub fn read(heap: Global, bytes: &[u8], switches: u8) -> Result<Plan, Fault>
    ensures value { Says texts_of result [] (spec.change switches bytes.now) }
    ensures good { IfOk result (λ p. GoodFor switches (plan_of p)) }
{
    let mut builder = Builder::new(heap, switches)?;
    let mut c = Cursor::new(bytes);
    c.kind(66)?;
    texts(&mut c, &mut builder, switches)?;
    builder.finish()
}

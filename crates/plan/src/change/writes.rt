// Writing a change.
ghost use Rattle.std.specs.Prelude.{◌≡◌, ◌≤◌, [], ◌++◌, map, length, take, vec_len, MatchResult};
ghost use Rattle.octets.specs.Parse.{Read};
ghost use Rattle.plan.specs.Changes as spec;
ghost use Rattle.plan.specs.Laws.{ReadsBack};
ghost use Rattle.plan.specs.Parts.{text_in};
ghost use Rattle.plan.specs.Views.{texts_of};

use crate::part::Part;
use crate::plans::Plan;
use std::alloc::AllocError;
use text::format;

// The texts of the parts, in the order of the switches. Where no memory is left, some of them.
fn texts(out: &mut Vec<u8>, parts: &[Part]) -> Result<(), AllocError>
    requires few { length parts.now ≤ 255 }
    ensures cases { MatchResult result
        (λ _. out.new.items ≡ out.old.items ++ spec.texts_bytes 0 (map text_in parts.now))
        (λ _. take (vec_len out.old) out.new.items ≡ out.old.items) }
{
    for (i, part) in parts.iter().enumerate() {
        format::write(out, i as u8, part.text())?;
    }
    Ok(())
}

// Puts the bytes of a change with this plan behind what is there, or changes nothing where no memory is left.
pub fn write(out: &mut Vec<u8>, plan: &Plan) -> Result<(), AllocError>
    ensures cases { MatchResult result
        (λ _. out.new.items ≡ out.old.items ++ spec.change_bytes (texts_of plan.now))
        (λ _. out.new.items ≡ out.old.items) }
    ensures back { spec.change (length (texts_of plan.now)) (spec.change_bytes (texts_of plan.now)) ≡ Read (texts_of plan.now) [] }
{
    let start = out.len();
    out.push(66)?;
    let written = texts(out, plan.parts.as_slice());
    if written.is_err() {
        out.truncate(start);
    }
    written
}

// What was written reads as the same texts.
pub fn change_stands()
    ensures reads_back { ReadsBack }
{}

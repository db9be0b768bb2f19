// Reading the words of a step.
ghost use Rattle.std.specs.Prelude.{◌≡◌, [], vec_items};
ghost use Rattle.notation.specs.Words.{left};
ghost use Rattle.notation.specs.Reading.{and_then, ended};
ghost use Rattle.notation.specs.Readers.{told};
ghost use Rattle.script.specs.declared.step.verbs.Verb.TheVariants.{Raw};
ghost use Rattle.script.specs.Steps as spec;
ghost use Rattle.script.specs.Readers.{Says};

use super::verbs::{Target, Verb, order_kind};
use super::{Named, Step};
use crate::numbers::{bytes, end, number};
use notation::Words;
use octets::Fault;
use std::alloc::Global;
use wire::order::Kind;

// Eight numbers.
fn fields(words: &mut Words) -> Result<[u32; 8], Fault>
    ensures value { told result (left words.new) ≡ spec.numbers 8 [] (left words.old) }
{
    let mut fields = [0; 8];
    for field in &mut fields {
        *field = number(words)?;
    }
    Ok(fields)
}

// An order: its word, its version, and for a round its round.
fn order(words: &mut Words) -> Result<Named, Fault>
    ensures value { told result (left words.new) ≡ spec.ordered (left words.old) }
{
    let word = words.next().ok_or(Fault::Form)?;
    let kind = order_kind(word)?;
    let version = number(words)?;
    Ok(match kind {
        Kind::Install => Named::Install(version),
        Kind::Stamp => Named::Stamp(version),
        Kind::Round => Named::Round(version, number(words)?),
        Kind::Remove => Named::Remove(version),
    })
}

// A switch and a port.
fn pair(words: &mut Words) -> Result<(u32, u32), Fault>
    ensures value { told result (left words.new) ≡ spec.pair (λ a b. (a, b)) (left words.old) }
{
    let switch = number(words)?;
    let port = number(words)?;
    Ok((switch, port))
}

// The bytes that the next word writes.
fn raw_bytes(heap: Global, words: &mut Words) -> Result<Vec<u8>, Fault>
    ensures value { Says vec_items result (left words.new) (spec.called spec.hex_of (left words.old)) }
{
    let word = words.next().ok_or(Fault::Form)?;
    bytes(heap, word)
}

fn raw(heap: Global, words: &mut Words) -> Result<Step, Fault>
    ensures value { Says spec.step_of result (left words.new) (spec.of_verb Raw (left words.old)) }
{
    let word = words.next().ok_or(Fault::Form)?;
    match Target::try_from(word)? {
        Target::Switch => {
            let switch = number(words)?;
            let bytes = raw_bytes(heap, words)?;
            Ok(Step::RawSwitch { switch, bytes })
        }
        Target::Desk => {
            let bytes = raw_bytes(heap, words)?;
            Ok(Step::RawDesk { bytes })
        }
    }
}

// The words behind the first one.
fn behind(heap: Global, verb: Verb, words: &mut Words) -> Result<Step, Fault>
    ensures value { Says spec.step_of result (left words.new) (spec.of_verb verb (left words.old)) }
{
    match verb {
        Verb::Change => Ok(Step::Change),
        Verb::Enter => {
            let switch = number(words)?;
            let fields = fields(words)?;
            Ok(Step::Enter { switch, fields })
        }
        Verb::Arrive => {
            let (switch, port) = pair(words)?;
            Ok(Step::Arrive { switch, port })
        }
        Verb::Lose => {
            let (switch, port) = pair(words)?;
            Ok(Step::Lose { switch, port })
        }
        Verb::Order => {
            let order = order(words)?;
            let switch = number(words)?;
            Ok(Step::Order { order, switch })
        }
        Verb::Answer => {
            let order = order(words)?;
            let switch = number(words)?;
            Ok(Step::Answer { order, switch })
        }
        Verb::Raw => raw(heap, words),
        Verb::Show => Ok(Step::Show),
    }
}

// All the words behind the first one.
pub fn read(heap: Global, verb: Verb, words: &mut Words) -> Result<Step, Fault>
    ensures value { Says spec.step_of result [] (and_then (spec.of_verb verb (left words.old)) ended) }
{
    let step = behind(heap, verb, words)?;
    end(words)?;
    Ok(step)
}

// One rule, where no pair is left.
ghost use Rattle.std.specs.Prelude.{◌≡◌, ◌+◌, ◌≤◌, [], ◌∷◌, ◌++◌, map, length};
ghost use Rattle.packet.specs.Pairs.{setting_of};
ghost use Rattle.text.specs.Texts.{nodes_of};
ghost use Rattle.text.specs.Trees.{meaning};
ghost use Rattle.meaning.specs.Evaluators.{text_of};
ghost use Rattle.prescribed.specs.Table as table;
ghost use Rattle.table.specs.Good.{Each, GoodWant};
ghost use Rattle.table.specs.Words.{outs_words, rule_words};
ghost use Rattle.leaves.specs.Outs.{settings_of};
ghost use Rattle.leaves.specs.Pairs.{wants_of};
ghost use Rattle.maker.specs.Knowing.{known_of};
ghost use Rattle.maker.specs.Leaves.{pair_words, pairs_words};
ghost use Rattle.maker.specs.Making.{MadeOf};

use crate::known::Known;
use crate::size::Size;
use arrayvec::ArrayVec;
use leaves::{Out, Outs};
use meaning::Evaluator;
use octets::Fault;
use packet::Pair;

// The most words of a rule: 8 wants, and 16 outs of 8 settings, with their numbers.
pub const RULE_WORDS: usize = 290;

// A field and a value.
fn pair(words: &mut ArrayVec<u16, RULE_WORDS>, p: Pair)
    requires room { length words.old.items + 2 ≤ 290 }
    ensures words { words.new.items ≡ words.old.items ++ pair_words p }
{
    words.push(u16::from(p.field));
    words.push(p.value);
}

// Wants, or the settings of one copy, with their number in front.
fn pairs(words: &mut ArrayVec<u16, RULE_WORDS>, ps: &[Pair])
    requires few { length ps.now ≤ 8 }
    requires room { length words.old.items + 17 ≤ 290 }
    ensures words { words.new.items ≡ words.old.items ++ pairs_words ps.now }
{
    words.push(ps.len() as u16);
    for p in ps {
        pair(words, *p);
    }
}

// Outs, with their number in front.
fn outs(words: &mut ArrayVec<u16, RULE_WORDS>, os: &[Out])
    requires few { length os.now ≤ 16 }
    requires room { length words.old.items + 273 ≤ 290 }
    ensures words { words.new.items ≡ words.old.items ++ outs_words (map settings_of os.now) }
    ensures few { length words.new.items ≤ length words.old.items + 273 }
{
    words.push(os.len() as u16);
    for o in os {
        pairs(words, o.as_slice());
    }
}

fn rule(wants: &[Pair], os: &[Out]) -> ArrayVec<u16, RULE_WORDS>
    requires few { length wants.now ≤ 8 }
    requires fewer { length os.now ≤ 16 }
    ensures words { result.items ≡ rule_words (record { wants = wants_of wants.now; outs = map settings_of os.now }) }
    ensures room { length result.items ≤ 290 }
{
    let mut words = ArrayVec::new();
    pairs(&mut words, wants);
    outs(&mut words, os);
    words
}

// Writes the rule of what is known at the front of `out`.
pub fn leaf(
    evaluator: &mut Evaluator,
    known: &Known,
    out: &mut [u16],
) -> Result<Option<Size>, Fault>
    requires sample { known.now.sample.fields ≡ table.sample (meaning (nodes_of (text_of evaluator.old))) (known_of known.now) }
    requires low { Each GoodWant (known_of known.now) }
    requires room { 290 ≤ length out.old }
    ensures text { text_of evaluator.new ≡ text_of evaluator.old }
    ensures made { MadeOf (meaning (nodes_of (text_of evaluator.old))) [] (known_of known.now) out.new result }
{
    let outs = Outs::of(evaluator, known.sample())?;
    let words = rule(known.as_slice(), outs.as_slice());
    let count = words.len();
    out[..count].copy_from_slice(words.as_slice());
    Ok(Some(Size {
        words: count,
        rules: 1,
    }))
}

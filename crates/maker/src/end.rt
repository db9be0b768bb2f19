// Where a table ends: every rule behind the last one with outs is left out.
ghost use Rattle.std.specs.Prelude.{◌≡◌, ◌<◌, ◌≤◌, length, IfSome};
ghost use Rattle.packet.specs.Table.{Table};
ghost use Rattle.table.specs.Words.{encode};
ghost use Rattle.maker.specs.End as spec;
ghost use Rattle.maker.specs.End.{rest_of, after_of, Ended};

use crate::size::Size;

// The words behind an out.
fn out_after(words: &[u16]) -> Option<&[u16]>
    ensures value { rest_of result ≡ spec.out_after words.now }
    ensures shorter { IfSome result (λ ws. length ws.now ≤ length words.now) }
{
    let (count, rest) = words.split_first()?;
    rest.get(2 * usize::from(*count)..)
}

// The words behind `count` outs.
fn outs_after(count: u16, words: &[u16]) -> Option<&[u16]>
    ensures value { rest_of result ≡ spec.outs_after count words.now }
    ensures shorter { IfSome result (λ ws. length ws.now ≤ length words.now) }
{
    let mut words = words;
    for _i in 0..count {
        words = out_after(words)?;
    }
    Some(words)
}

// The number of the outs, which stands first, and the words behind them.
fn counted_after(words: &[u16]) -> Option<(u16, &[u16])>
    ensures value { after_of result ≡ spec.counted_after words.now }
    ensures shorter { IfSome result (λ p. length p.1.now ≤ length words.now) }
{
    let (count, outs) = words.split_first()?;
    let rest = outs_after(*count, outs)?;
    Some((*count, rest))
}

// How many outs the first rule has, and the words behind it.
fn rule_after(words: &[u16]) -> Option<(u16, &[u16])>
    ensures value { after_of result ≡ spec.rule_after words.now }
    ensures shorter { IfSome result (λ p. length p.1.now < length words.now) }
{
    let (count, rest) = words.split_first()?;
    let outs = rest.get(2 * usize::from(*count)..)?;
    counted_after(outs)
}

// How much of the table is left.
pub fn end(words: &[u16]) -> Size
    ensures value { (t : Table) → words.now ≡ encode t → Ended t result }
    ensures bound { result.words ≤ length words.now }
    ensures rules { result.rules ≤ length words.now }
{
    let Some((outs, rest)) = rule_after(words) else {
        return Size::default();
    };
    let behind = end(rest);
    if outs == 0 && behind.rules == 0 {
        return Size::default();
    }
    Size {
        words: words.len() - rest.len() + behind.words,
        rules: behind.rules + 1,
    }
}

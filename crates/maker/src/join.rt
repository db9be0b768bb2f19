// Y and N, one behind the other, become one table.
ghost use Rattle.std.specs.Prelude.{◌≡◌, ◌+◌, ◌≤◌, length, take, drop};
ghost use Rattle.packet.specs.Table.{Table};
ghost use Rattle.table.specs.Good.{Each, GoodRule};
ghost use Rattle.table.specs.Words.{encode};
ghost use Rattle.maker.specs.Making.{JoinedAs};

use crate::compare::same_without;
use crate::size::Size;

// The most rules of a table on the way.
const MOST: usize = 8192;

// Y stands at the front of `out` and N behind it. None is a table that is too long.
pub fn join(f: u8, y: Size, n: Size, out: &mut [u16]) -> Option<Size>
    requires within { y.words + n.words ≤ length out.old }
    requires few { y.rules ≤ 8192 }
    requires fewer { n.rules ≤ 8192 }
    ensures joined { (s t : Table) → take y.words out.old ≡ encode s → take n.words (drop y.words out.old) ≡ encode t →
        y.rules ≡ length s → n.rules ≡ length t → Each GoodRule s → Each GoodRule t → JoinedAs f s t (y.words + n.words) out.new result }
{
    let both = Size {
        words: y.words + n.words,
        rules: y.rules + n.rules,
    };
    let lent = &out[..];
    if same_without(f as u16, &lent[..y.words], &lent[y.words..both.words]) {
        out.copy_within(y.words..both.words, 0);
        return Some(n);
    }
    if both.rules > MOST {
        return None;
    }
    Some(both)
}

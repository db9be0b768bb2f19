// Reading a table from bytes into lent words.
ghost use Rattle.std.specs.Prelude.{◌≡◌, ◌≤◌, [], take, IfOk};
ghost use Rattle.octets.specs.Parse.{Read};
ghost use Rattle.octets.specs.Readers.{told, rest};
ghost use Rattle.table.specs.Words.{Sound, rules_of};
ghost use Rattle.tablebytes.specs.Filled.{Wrote, Stored, sized};
ghost use Rattle.tablebytes.specs.Format as spec;
ghost use Rattle.tablebytes.specs.Laws as laws;

use crate::filler::Filler;
use octets::{Cursor, Fault};

// The words of the largest table: 2,048 rules of 8 wants and 16 outs of 8 settings.
pub const MOST_WORDS: usize = 593_920;

// How many words the table wants that comes next. It is read to its end, and no word is written.
pub fn measure(c: &mut Cursor) -> Result<usize, Fault>
    ensures value { told result (rest c.new) ≡ sized (spec.table (rest c.old)) }
    ensures few { IfOk result (λ n. n ≤ 593920) }
{
    let mut none = [];
    let mut filler = Filler::new(c.left(), &mut none);
    filler.table()?;
    *c = Cursor::new(filler.left());
    Ok(filler.count())
}

// Fills the words with the table that stands in front, as far as there are places, and answers how many words it has.
fn fill(bytes: &[u8], words: &mut [u16]) -> Result<usize, Fault>
    ensures { Wrote (spec.table bytes.now) words.old words.new result }
{
    let mut filler = Filler::new(bytes, words);
    filler.table()?;
    Ok(filler.count())
}

// Reads a table with nothing behind it into the words, and answers how many it takes. A table that is refused, or for
// which there are too few words, changes none of them.
pub fn read(bytes: &[u8], words: &mut [u16]) -> Result<usize, Fault>
    ensures cases { Stored (spec.alone bytes.now) words.old words.new result }
    ensures table { IfOk result (λ n. Sound (take n words.new) × (spec.alone bytes.now ≡ Read (rules_of (take n words.new)) [])) }
{
    let mut c = Cursor::new(bytes);
    let n = measure(&mut c)?;
    c.end()?;
    if words.len() < n {
        return Err(Fault::Memory);
    }
    fill(bytes, words)
}

// What reading and writing have to do with each other.
pub fn format_stands()
    ensures reads_back { laws.ReadsBack }
    ensures writes_back { laws.WritesBack }
    ensures no_front { laws.NoFront }
    ensures enough { laws.Enough }
{}

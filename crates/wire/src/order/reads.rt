// Reading an order or an answer.
ghost use Rattle.std.specs.Prelude.{◌≡◌, []};
ghost use Rattle.octets.specs.Readers.{told, rest};
ghost use Rattle.octets.specs.Parse.{alone};
ghost use Rattle.wire.specs.Orders as spec;

use super::{Kind, Letter, Message, Order};
use octets::{Cursor, Fault};

// 1 to h for a round, and 0 otherwise.
fn round_of(c: &mut Cursor, h: u8, kind: Kind) -> Result<u8, Fault>
    ensures value { told result (rest c.new) ≡ spec.round_for h (spec.number kind) (rest c.old) }
{
    match kind {
        Kind::Round => c.between(1, h),
        Kind::Install | Kind::Stamp | Kind::Remove => c.between(0, 0),
    }
}

// What follows the kind: the order and its switch.
fn order(c: &mut Cursor, n: u8, h: u8, kind: Kind) -> Result<(Order, u8), Fault>
    ensures value { told result (rest c.new) ≡ spec.order n h (spec.number kind) (rest c.old) }
{
    let version = c.word()?;
    let round = round_of(c, h, kind)?;
    let switch = c.below(n)?;
    Ok((Order::of(kind, version, round), switch))
}

// An order or an answer, in a net of n switches and h hops. What is left to read is an install's table.
pub fn read(c: &mut Cursor, n: u8, h: u8) -> Result<Letter, Fault>
    ensures value { told result (rest c.new) ≡ spec.letter n h (rest c.old) }
{
    let kind = c.byte()?;
    match kind {
        16..=19 => {
            let (o, switch) = order(c, n, h, Kind::try_from(kind - 16)?)?;
            Ok(Letter {
                message: Message::Ask(o),
                switch,
            })
        }
        48..=51 => {
            let (o, switch) = order(c, n, h, Kind::try_from(kind - 48)?)?;
            Ok(Letter {
                message: Message::Answer(o),
                switch,
            })
        }
        _ => Err(Fault::Form),
    }
}

// The same with nothing behind it.
pub fn read_alone(bytes: &[u8], n: u8, h: u8) -> Result<Letter, Fault>
    ensures value { told result [] ≡ alone (spec.letter n h) bytes.now }
{
    let mut c = Cursor::new(bytes);
    let letter = read(&mut c, n, h)?;
    c.end()?;
    Ok(letter)
}

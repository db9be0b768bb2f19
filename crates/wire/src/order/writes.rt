// Writing an order or an answer.
ghost use Rattle.std.specs.Prelude.{◌≡◌, ◌≤◌, ◌++◌, MatchResult};
ghost use Rattle.wire.specs.Orders as spec;

use super::{Letter, Message};
use std::alloc::AllocError;

fn kind(m: Message) -> u8
    ensures value { result ≡ spec.kind_byte m }
{
    match m {
        Message::Ask(o) => 16 + u8::from(o.kind()),
        Message::Answer(o) => 48 + u8::from(o.kind()),
    }
}

// Puts the bytes behind what is there, or changes nothing where no memory is left.
pub fn write(out: &mut Vec<u8>, letter: Letter) -> Result<(), AllocError>
    ensures cases { MatchResult result
        (λ _. out.new.items ≡ out.old.items ++ spec.letter_bytes letter)
        (λ _. out.new.items ≡ out.old.items) }
{
    let (Message::Ask(o) | Message::Answer(o)) = letter.message;
    let [high, low] = o.version().to_be_bytes();
    out.extend_from_slice(&[kind(letter.message), high, low, o.round(), letter.switch])
}

// The numbers and bytes that words write.
ghost use Rattle.std.specs.Prelude.{◌≡◌, [], vec_items};
ghost use Rattle.notation.specs.Words.{left};
ghost use Rattle.notation.specs.Reading.{ended};
ghost use Rattle.notation.specs.Readers.{told};
ghost use Rattle.script.specs.Steps as spec;
ghost use Rattle.script.specs.Lines.{after_word};
ghost use Rattle.script.specs.Readers.{Gives, fault_of};

use hex::{FromHexError, decode};
use notation::{Words, decimal};
use octets::Fault;
use std::alloc::Global;

// The next word as a number; one that is too large as the largest there is.
pub fn number(words: &mut Words) -> Result<u32, Fault>
    ensures value { told result (left words.new) ≡ spec.typed (left words.old) }
    ensures bytes { words.new.bytes.now ≡ after_word words.old.bytes.now }
{
    let word = words.next().ok_or(Fault::Form)?;
    decimal(word).ok_or(Fault::Form)
}

// No word may be left.
pub fn end(words: &Words) -> Result<(), Fault>
    ensures value { told result [] ≡ ended tt (left words.now) }
{
    if words.is_done() {
        Ok(())
    } else {
        Err(Fault::Form)
    }
}

// Want of memory is no fault of the word.
fn fault_of(error: FromHexError) -> Fault
    ensures value { result ≡ fault_of error }
{
    match error {
        FromHexError::OutOfMemory => Fault::Memory,
        FromHexError::InvalidHexCharacter { .. }
        | FromHexError::OddLength
        | FromHexError::InvalidStringLength => Fault::Form,
    }
}

// The bytes that a word writes, two hexadecimal digits for each.
pub fn bytes(heap: Global, word: &[u8]) -> Result<Vec<u8>, Fault>
    ensures value { Gives vec_items result (spec.hex_of word.now) }
{
    decode(heap, word).map_err(fault_of)
}

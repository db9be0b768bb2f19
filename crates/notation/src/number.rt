// Decimal numbers.
ghost use Rattle.std.specs.Prelude.{◌≡◌};
ghost use Rattle.notation.specs.Numbers.{number_of, capped};

// The number that a word writes in decimal digits; one that is too large as the largest there is.
pub fn decimal(word: &[u8]) -> Option<u32>
    ensures value { result ≡ capped (number_of word.now) }
{
    if word.is_empty() {
        return None;
    }
    let mut n: u32 = 0;
    for b in word {
        if !b.is_ascii_digit() {
            return None;
        }
        n = n.saturating_mul(10).saturating_add(u32::from(*b - b'0'));
    }
    Some(n)
}

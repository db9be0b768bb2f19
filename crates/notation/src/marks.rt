// Splitting bytes at marks.
ghost use Rattle.std.specs.Prelude.{◌≡◌, ◌+◌, ◌-◌, ◌<◌, ◌≤◌, length};
ghost use Rattle.notation.specs.Marks.{marks, before, behind};

// What ends a line, a node, what stands in front of a comment, and a word.
#[derive(Clone, Copy, Debug, PartialEq, Eq)]
pub enum Mark {
    Newline,
    Semicolon,
    Hash,
    Blank,
}

impl Mark {
    fn is(self, b: u8) -> bool
        ensures value { result ≡ marks self b }
    {
        match self {
            Mark::Newline => b == b'\n',
            Mark::Semicolon => b == b';',
            Mark::Hash => b == b'#',
            Mark::Blank => matches!(b, b' ' | b'\t' | b'\r'),
        }
    }
}

// The bytes before the first mark and those behind it. Without a mark, all of them and none.
pub fn cut(bytes: &[u8], mark: Mark) -> (&[u8], &[u8])
    ensures front { result.0.now ≡ before mark bytes.now }
    ensures back { result.1.now ≡ behind mark bytes.now }
    ensures shorter { length result.1.now ≤ length bytes.now - 1 }
{
    match bytes.iter().position(|b| mark.is(*b)) {
        Some(i) => (&bytes[..i], &bytes[i + 1..]),
        None => (bytes, &[]),
    }
}

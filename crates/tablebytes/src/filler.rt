// What reads the bytes of a table and fills lent words with it.
ghost use Rattle.std.specs.Prelude.{◌+◌, ◌<◌, ◌^◌, length};

mod fills;

// What is left to read, and how many words were written, as far as there are places for them. Each comes from a byte of its own at least.
#[derive(Drop)]
pub(crate) struct Filler<'a, 'o> {
    bytes: &'a [u8],
    out: &'o mut [u16],
    count: usize,
    ghost room: { count + length bytes.now < 2 ^ 64 },
}

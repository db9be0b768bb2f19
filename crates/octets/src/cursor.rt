// What is left to read of a string of bytes.
mod reads;

#[derive(Drop)]
pub struct Cursor<'a> {
    bytes: &'a [u8],
}

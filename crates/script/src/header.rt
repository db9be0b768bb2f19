// The header of a script: the net, its cables and outside ports, the texts of version 0, and `start`.
use crate::line::TextLine;

mod description;
mod draft;
mod headings;
mod lines;
mod reads;

pub use reads::read;

// A text, and its line in the script.
#[derive(Clone, Copy, Debug, PartialEq, Eq)]
pub struct Placed<'a> {
    pub line: usize,
    pub text: TextLine<'a>,
}

// What stands before `start`: the bytes of the list of cables, and the texts. `line` is the line of `start`, `rest` what follows it.
#[derive(Drop)]
pub struct Header<'a> {
    pub cables: Vec<u8>,
    pub texts: Vec<Placed<'a>>,
    pub line: usize,
    pub rest: &'a [u8],
}

// The lines of a script.
use crate::step::Step;

mod reads;

pub use reads::read;
pub(crate) use reads::text;

// A text for a switch, as it was typed. Its nodes are yet to be read.
#[derive(Clone, Copy, Debug, PartialEq, Eq)]
pub struct TextLine<'a> {
    pub switch: u32,
    pub nodes: &'a [u8],
}

// A line behind `start`.
#[derive(Drop)]
pub enum Line<'a> {
    // Blank, or a comment.
    Nothing,
    Text(TextLine<'a>),
    Step(Step),
}

// The byte form of a text.
mod reads;
mod writes;

pub use reads::{read, read_alone, read_nodes};
pub use writes::{format_stands, write};

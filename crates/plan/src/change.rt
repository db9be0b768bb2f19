// A change as bytes: reading it, to its end or its first fault, and writing it.
mod reads;
mod writes;

pub use reads::read;
pub use writes::{change_stands, write};

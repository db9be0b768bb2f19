// The notation of a text: what people write, read to a text or to its first fault and the fault's line.
#![tactic(auto)]

mod kind;
mod laws;
pub mod marks;
pub mod number;
pub mod parts;
mod reader;
mod used;
pub mod words;

pub use laws::notation_stands;
pub use marks::{Mark, cut};
pub use number::decimal;
pub use parts::Parts;
pub use reader::{Refusal, read};
pub use words::Words;

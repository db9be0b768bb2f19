// Tables as bytes: how they are read into lent words.
#![tactic(auto)]

mod filler;
mod reads;

pub use reads::{MOST_WORDS, format_stands, measure, read};

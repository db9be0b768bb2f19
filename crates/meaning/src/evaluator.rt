// An evaluator answers what the nodes of its text say of packets.
ghost use Rattle.std.specs.Prelude.{◌≡◌, ℕ, ◌<◌, ◌≤◌, vec_items, vec_len, vec_capacity, slice_index_or};
ghost use Rattle.std.specs.List.{All};
ghost use Rattle.text.specs.Texts.{nodes_of};
ghost use Rattle.meaning.specs.Kept.{RowRight, AllKept};

use crate::memo::{Kept, Row};
use packet::Packet;
use text::Text;

mod calls;
mod gives;
mod passes;

#[derive(Drop)]
pub struct Evaluator {
    text: Text,
    // The packet whose copies were asked for last.
    asked: Packet,
    rows: Vec<Row>,
    // What each node gave.
    kept: Vec<Kept>,
    ghost room: { vec_capacity rows ≡ 32 },
    ghost few_rows: { vec_len rows ≤ 32 },
    ghost rows_right: { All (RowRight (nodes_of text)) (vec_items rows) },
    ghost long: { vec_len kept ≡ vec_len text.nodes },
    ghost kept_right: { AllKept (nodes_of text) (vec_items kept) },
}

// A plan that is being built, text by text.
ghost use Rattle.std.specs.Prelude.{◌≤◌, vec_len};

use crate::part::{Part, Scratch};

mod calls;

// The parts so far, by switch.
#[derive(Drop)]
pub struct Builder {
    parts: Vec<Option<Part>>,
    pub(crate) scratch: Scratch,
    ghost few: { vec_len parts ≤ 255 },
}

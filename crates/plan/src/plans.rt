// A plan: a part for each switch.
ghost use Rattle.std.specs.Prelude.{◌≤◌, vec_len};

use crate::part::Part;

mod calls;

#[derive(Drop)]
pub struct Plan {
    pub(crate) parts: Vec<Part>,
    ghost few: { vec_len parts ≤ 255 },
}

// The pairs that a text tests, each once and in rising order.
ghost use Rattle.std.specs.Prelude.{◌≤◌, vec_len};
ghost use Rattle.std.specs.List.{AllWithin};

use packet::Pair;

mod calls;

// At most 512 pairs, of fields 0 to 7.
#[derive(Drop)]
pub struct Pairs {
    items: Vec<Pair>,
    ghost few: { vec_len items ≤ 512 },
    ghost low: { AllWithin (λ p. p.field ≤ 7) items.items 0 (vec_len items) },
}

// A table in lent words. What holds of every table stands in its type.
ghost use Rattle.std.specs.Prelude.{◌≡◌, true};
ghost use Rattle.table.specs.Words.{sound};

mod calls;

pub use crate::sound::is_table;
pub use calls::layout_stands;

#[derive(Clone, Copy)]
pub struct Table<'a> {
    words: &'a [u16],
    ghost sound: { sound words.now ≡ true },
}

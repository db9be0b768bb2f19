// How many words and rules a table has.
#[derive(Clone, Copy, Debug, Default, PartialEq, Eq)]
pub struct Size {
    pub words: usize,
    pub rules: usize,
}

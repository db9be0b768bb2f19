// The nodes that trees are made of.
use crate::out::Out;

#[derive(Clone, Copy, Debug, PartialEq, Eq, Hash)]
pub enum Node {
    // No outs.
    Nothing,
    // One out more than the tree `rest` has.
    Also {
        out: Out,
        rest: usize,
    },
    // The tree `met` where the field has the value, and else `unmet`.
    Test {
        field: u8,
        value: u16,
        met: usize,
        unmet: usize,
    },
}

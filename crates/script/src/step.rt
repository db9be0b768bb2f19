// The steps of a script. Their numbers are as they were typed: which of them exist is for the net to say.
mod reads;
mod verbs;

pub(crate) use reads::read;
pub(crate) use verbs::Verb;

// An order as a line names it: of a version, and a round of one.
#[derive(Clone, Copy, Debug, PartialEq, Eq)]
pub enum Named {
    Install(u32),
    Stamp(u32),
    Round(u32, u32),
    Remove(u32),
}

#[derive(Drop)]
pub enum Step {
    // The texts since the last change go to the desk.
    Change,
    // A packet comes in from outside.
    Enter { switch: u32, fields: [u32; 8] },
    // The first item on the cable that goes out of this port comes in at its other end, or is lost.
    Arrive { switch: u32, port: u32 },
    Lose { switch: u32, port: u32 },
    // An order reaches a switch, the answer to one the desk.
    Order { order: Named, switch: u32 },
    Answer { order: Named, switch: u32 },
    // Bytes reach a switch as an order, or the desk.
    RawSwitch { switch: u32, bytes: Vec<u8> },
    RawDesk { bytes: Vec<u8> },
    // A line for each switch.
    Show,
}

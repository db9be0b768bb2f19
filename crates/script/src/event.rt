// What happens in a net, as a rehearsal prints it.
use octets::Fault;
use packet::Packet;
use wire::{Frame, Mark};

mod lines;

// A stage that the desk enters, with the version that it is about; a round is flushed for a version.
#[derive(Clone, Copy, Debug, PartialEq, Eq)]
pub enum Stage {
    Installing(u16),
    Stamping(u16),
    Flushing(u16, u8),
    Removing(u16),
    Idle(u16),
}

// The versions whose tables a switch holds, in rising order.
#[derive(Clone, Copy, Debug, PartialEq, Eq)]
pub enum Held {
    None,
    One(u16),
    Two(u16, u16),
}

#[derive(Clone, Copy, Debug, PartialEq, Eq)]
pub enum Event {
    // A packet that came in as `first` at switch `from` left as `last` at switch `at`.
    Left {
        from: u8,
        first: Packet,
        version: u16,
        at: u8,
        last: Packet,
    },
    // Lost on the cable that goes out of this port of this switch.
    LostFrame {
        switch: u8,
        port: u8,
        frame: Frame,
    },
    LostMark {
        switch: u8,
        port: u8,
        mark: Mark,
    },
    Stage(Stage),
    Switch {
        number: u8,
        versions: Held,
        stamp: u16,
        floor: u16,
    },
    Refused(Fault),
    // There is no such step now.
    Impossible,
}

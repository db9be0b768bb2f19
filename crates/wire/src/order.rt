// Orders, which the desk gives to switches, and the answers to them.
ghost use Rattle.std.specs.Prelude.{◌≡◌, ◌≤◌, MatchResult};
ghost use Rattle.octets.specs.declared.fault.Fault.TheVariants.{Form};
ghost use Rattle.wire.specs.Orders as spec;

mod reads;
mod writes;

use octets::Fault;
pub use reads::{read, read_alone};
pub use writes::write;

// What is ordered, of a version. Behind an install stands its table, which is no part of this.
#[derive(Clone, Copy, Debug, PartialEq, Eq)]
pub enum Order {
    Install(u16),
    Stamp(u16),
    Round(u16, u8),
    Remove(u16),
}

// Kinds count from 0 here; in bytes those of orders begin at 16 and those of answers at 48.
#[derive(Clone, Copy, Debug, PartialEq, Eq)]
pub enum Kind {
    Install,
    Stamp,
    Round,
    Remove,
}

#[derive(Clone, Copy, Debug, PartialEq, Eq)]
pub enum Message {
    Ask(Order),
    Answer(Order),
}

// A message with the switch that is asked or that answers.
#[derive(Clone, Copy, Debug, PartialEq, Eq)]
pub struct Letter {
    pub message: Message,
    pub switch: u8,
}

impl From<Kind> for u8 {
    ghost from_gives = { λ kind r. r ≡ spec.number kind };

    fn from(kind: Kind) -> u8 {
        match kind {
            Kind::Install => 0,
            Kind::Stamp => 1,
            Kind::Round => 2,
            Kind::Remove => 3,
        }
    }
}

impl TryFrom<u8> for Kind {
    type Error = Fault;

    ghost try_from_gives = { λ n r. MatchResult r (λ kind. spec.number kind ≡ n) (λ e. (4 ≤ n) × (e ≡ Form)) };

    fn try_from(n: u8) -> Result<Kind, Fault> {
        match n {
            0 => Ok(Kind::Install),
            1 => Ok(Kind::Stamp),
            2 => Ok(Kind::Round),
            3 => Ok(Kind::Remove),
            _ => Err(Fault::Form),
        }
    }
}

impl Order {
    pub fn kind(self) -> Kind
        ensures value { spec.number result ≡ spec.kind_of self }
    {
        match self {
            Order::Install(_) => Kind::Install,
            Order::Stamp(_) => Kind::Stamp,
            Order::Round(_, _) => Kind::Round,
            Order::Remove(_) => Kind::Remove,
        }
    }

    // Only a round has a round.
    pub fn of(kind: Kind, version: u16, round: u8) -> Order
        ensures value { result ≡ spec.order_of (spec.number kind) version round }
    {
        match kind {
            Kind::Install => Order::Install(version),
            Kind::Stamp => Order::Stamp(version),
            Kind::Round => Order::Round(version, round),
            Kind::Remove => Order::Remove(version),
        }
    }

    // The same by the number of the kind. Numbers from 4 up give what that of a removal gives.
    pub fn of_kind(kind: u8, version: u16, round: u8) -> Order
        ensures value { result ≡ spec.order_of kind version round }
    {
        Order::of(Kind::try_from(kind).unwrap_or(Kind::Remove), version, round)
    }

    pub fn version(self) -> u16
        ensures value { result ≡ spec.version_of self }
    {
        match self {
            Order::Install(v) | Order::Stamp(v) | Order::Round(v, _) | Order::Remove(v) => v,
        }
    }

    // 0 where there is none.
    pub fn round(self) -> u8
        ensures value { result ≡ spec.round_of self }
    {
        match self {
            Order::Round(_, r) => r,
            Order::Install(_) | Order::Stamp(_) | Order::Remove(_) => 0,
        }
    }
}

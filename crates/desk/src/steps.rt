// The desk's stages, and what it orders in each.
ghost use Rattle.std.specs.Prelude.{◌≡◌};
ghost use Rattle.packet.specs.Table.{Table};
ghost use Rattle.run.specs.Desk.{after_round, first_desk, next_version, onwards, orders_of};
ghost use Rattle.desk.specs.Model.{begins, begun, desk_of, listed, stage_of, told};

use crate::{Desk, Order, SWITCHES, Stage};
use octets::Fault;

impl Desk {
    pub fn first() -> Desk
        ensures after { desk_of result ≡ first_desk }
    {
        unheard(0, 0, Stage::Idle)
    }

    pub fn stage(self) -> Stage
        ensures value { stage_of result ≡ (desk_of self).stage }
    {
        self.stage
    }

    pub fn from(self) -> u16
        ensures value { result ≡ (desk_of self).from }
    {
        self.from
    }

    pub fn to(self) -> u16
        ensures value { result ≡ (desk_of self).to }
    {
        self.to
    }

    // The order that the desk gives to every switch now, as often as it is asked.
    pub fn order(self) -> Option<Order>
        ensures gives { (t : Table) → listed t result ≡ orders_of (desk_of self) t }
    {
        match self.stage {
            Stage::Idle => None,
            Stage::Installing => Some(Order::Install(self.to)),
            Stage::Stamping => Some(Order::Stamp(self.to)),
            Stage::Flushing(r) => Some(Order::Round(self.to, r)),
            Stage::Removing => Some(Order::Remove(self.from)),
        }
    }

    // The version of the next change.
    pub fn next_version(self) -> Option<u16>
        ensures value { result ≡ next_version (desk_of self) }
    {
        self.to.checked_add(1)
    }

    // A change begins, unless another one is under way or the version is the last one.
    pub fn change(self) -> Result<Desk, Fault>
        ensures after { told result ≡ begun (desk_of self) }
    {
        if self.stage != Stage::Idle {
            return Err(Fault::Busy);
        }
        let to = self.next_version().ok_or(Fault::LastVersion)?;
        Ok(unheard(self.from, to, Stage::Installing))
    }

    // All have answered: on to the next stage, with this many rounds between stamping and removing.
    pub fn go_on(self, rounds: u8) -> Desk
        ensures after { desk_of result ≡ onwards rounds (desk_of self) }
    {
        match self.stage {
            Stage::Idle => self,
            Stage::Installing => unheard(self.from, self.to, Stage::Stamping),
            Stage::Stamping => unheard(self.from, self.to, after_round(rounds, 0)),
            Stage::Flushing(r) => unheard(self.from, self.to, after_round(rounds, r)),
            Stage::Removing => unheard(self.to, self.to, Stage::Idle),
        }
    }
}

// The stage begins: no switch has answered.
fn unheard(from: u16, to: u16, stage: Stage) -> Desk
    ensures after { desk_of result ≡ begins from to (stage_of stage) }
{
    Desk {
        from,
        to,
        stage,
        seen: [false; SWITCHES],
    }
}

// The stage behind round r.
fn after_round(rounds: u8, r: u8) -> Stage
    ensures value { stage_of result ≡ after_round rounds r }
{
    if r < rounds {
        Stage::Flushing(r + 1)
    } else {
        Stage::Removing
    }
}

// The answers that the desk hears.
ghost use Rattle.std.specs.Prelude.{◌≡◌, ◌<◌, Some, Decides, MatchResult};
ghost use Rattle.run.specs.Desk.{AllSeen, heard};
ghost use Rattle.desk.specs.Model.{Awaits, Heard, Refused, desk_of, most};

use crate::{Desk, Order, SWITCHES};
use octets::Fault;

// The answer is to this very order; to none there is no answer.
fn is_to(answer: Order, order: Option<Order>) -> bool
    ensures test { Decides result (order ≡ Some answer) }
{
    order == Some(answer)
}

impl Desk {
    // Switch i has answered.
    fn hear(mut self, i: u8) -> Desk
        requires { i < most }
        ensures after { desk_of result ≡ heard i (desk_of self) }
    {
        self.seen[usize::from(i)] = true;
        self
    }

    // The first switches, this many, have all answered.
    pub fn all_seen(self, switches: u8) -> bool
        ensures test { Decides result (AllSeen switches (desk_of self)) }
    {
        let switches = usize::from(switches);
        switches <= SWITCHES && self.seen[..switches].iter().all(|seen| *seen)
    }

    // The answer is the one to the order of the stage.
    pub fn awaits(self, answer: Order) -> bool
        ensures test { Decides result (Awaits (desk_of self) answer) }
    {
        is_to(answer, self.order())
    }

    // Hears an answer of a switch; when the first switches have all answered, the desk goes on.
    pub fn accept(self, answer: Order, switch: u8, switches: u8, rounds: u8) -> Result<Desk, Fault>
        ensures after { MatchResult result (λ d. Heard switches rounds switch answer (desk_of self) (desk_of d)) (λ e. Refused switch answer (desk_of self) e) }
    {
        if usize::from(switch) >= SWITCHES {
            return Err(Fault::Range);
        }
        if !self.awaits(answer) {
            return Err(Fault::OtherOrder);
        }
        let heard = self.hear(switch);
        Ok(if heard.all_seen(switches) {
            heard.go_on(rounds)
        } else {
            heard
        })
    }
}

// How a plan is built.
ghost use Rattle.std.specs.Prelude.{◌≡◌, List, [], length, replicate, IfOk, if◌then◌else◌, None, Ok, Err, OnErr};
ghost use Rattle.octets.specs.declared.fault.Fault.TheVariants.{Range};
ghost use Rattle.octets.specs.Parse.{Read};
ghost use Rattle.text.specs.Texts.{nodes_of};
ghost use Rattle.plan.specs.Laws.{GoodFor};
ghost use Rattle.plan.specs.Slots.{finished, free, line};
ghost use Rattle.plan.specs.Views.{plan_of, slots_of, texts_of, Says};

use super::Builder;
use crate::part::{Part, Scratch};
use crate::plans::Plan;
use octets::Fault;
use std::alloc::{AllocError, Global};
use text::Text;

impl Builder {
    // For so many switches, none of which has a text.
    pub fn new(heap: Global, switches: u8) -> Result<Builder, AllocError>
        ensures made { IfOk result (λ b. slots_of b ≡ replicate switches None) }
    {
        let mut parts = Vec::new(heap);
        parts.resize_with(usize::from(switches), || None)?;
        let scratch = Scratch::new(heap);
        Ok(Builder { parts, scratch })
    }

    // A text for this switch may come: the switch is there, and has none yet.
    pub fn claim(&self, switch: u8) -> Result<(), Fault>
        ensures value { result ≡ (if free (slots_of self.now) switch then Ok tt else Err Range) }
    {
        match self.parts.get(usize::from(switch)) {
            Some(None) => Ok(()),
            _ => Err(Fault::Range),
        }
    }

    // The text of this switch, if it fits. A refusal changes nothing.
    pub fn put(&mut self, switch: u8, text: Text) -> Result<(), Fault>
        ensures value { Says (λ _. slots_of self.new) result [] (line (slots_of self.old) switch (Read (nodes_of text)) []) }
        ensures same { OnErr result (slots_of self.new ≡ slots_of self.old) }
    {
        self.claim(switch)?;
        let part = Part::new(&mut self.scratch, text)?;
        self.parts[usize::from(switch)] = Some(part);
        Ok(())
    }

    // The plan, if every switch has its text.
    pub fn finish(self) -> Result<Plan, Fault>
        ensures value { Says texts_of result [] (finished (slots_of self) []) }
        ensures good { IfOk result (λ p. GoodFor (length (slots_of self)) (plan_of p)) }
    {
        let Builder {
            parts: slots,
            scratch,
        } = self;
        let mut parts = Vec::with_capacity(scratch.heap, slots.len())?;
        for slot in slots {
            parts.push_reserved(slot.ok_or(Fault::Range)?);
        }
        Ok(Plan { parts })
    }
}

// Where the tables of one text after the other are made.
ghost use Rattle.std.specs.Prelude.{◌≡◌, ◌≤◌, length, vec_len, MatchResult, OnOk};
ghost use Rattle.text.specs.Texts.{nodes_of};
ghost use Rattle.text.specs.Trees.{meaning};
ghost use Rattle.maker.specs.Makers.{policy_of, room};
ghost use Rattle.plan.specs.Parts.{Made, Unmade};

use maker::Maker;
use octets::Fault;
use std::alloc::{AllocError, Global};
use text::Text;

// The words are lent to each maker in turn.
#[derive(Drop)]
pub(crate) struct Scratch {
    pub(crate) heap: Global,
    words: Vec<u16>,
}

impl Scratch {
    pub(crate) fn new(heap: Global) -> Scratch {
        Scratch {
            heap,
            words: Vec::new(heap),
        }
    }

    // At least so many words.
    fn stretch(&mut self, size: usize) -> Result<(), AllocError>
        ensures len { OnOk result (size ≤ vec_len self.new.words) }
    {
        if self.words.len() < size {
            self.words.resize(size, 0)?;
        }
        Ok(())
    }

    // The words of a text's table.
    pub(crate) fn make(&mut self, text: &Text) -> Result<Vec<u16>, Fault>
        ensures cases { MatchResult result (λ v. Made (meaning (nodes_of text.now)) v.items) (Unmade (meaning (nodes_of text.now))) }
    {
        let mut maker = Maker::new(self.heap, text.clone()?)?;
        self.stretch(maker.room())?;
        made_in(self.heap, &mut maker, self.words.as_mut_slice())
    }
}

// The words of a maker's table, made in the lent ones.
fn made_in(heap: Global, maker: &mut Maker, lent: &mut [u16]) -> Result<Vec<u16>, Fault>
    requires room { room (policy_of maker.old) ≤ length lent.old }
    ensures cases { MatchResult result (λ v. Made (policy_of maker.old) v.items) (Unmade (policy_of maker.old)) }
{
    let size = maker.make(lent)?;
    Ok(Vec::from_slice(heap, &lent[..size])?)
}

// How a table is made.
ghost use Rattle.std.specs.Prelude.{◌≡◌, length, IfOk};
ghost use Rattle.text.specs.Texts.{nodes_of};
ghost use Rattle.text.specs.Trees.{meaning};
ghost use Rattle.maker.specs.Makers.{policy_of, room, Makes, Handed};

use super::{Maker, NoTable};
use crate::leaf::RULE_WORDS;
use leaves::{Pairs, unnamed};
use meaning::Evaluator;
use octets::Fault;
use std::alloc::{AllocError, Global};
use text::Text;

impl Maker {
    // Asks for all the memory that is ever used; nothing that follows allocates.
    pub fn new(heap: Global, text: Text) -> Result<Maker, AllocError>
        ensures made { IfOk result (λ m. policy_of m ≡ meaning (nodes_of text)) }
    {
        let pairs = Pairs::of(heap, &text)?;
        let blank = unnamed(&text);
        let evaluator = Evaluator::new(heap, text)?;
        Ok(Maker {
            evaluator,
            pairs,
            blank,
        })
    }

    // How many words always suffice.
    pub fn room(&self) -> usize
        ensures value { result ≡ room (policy_of self.now) }
    {
        let leaves = self.pairs.product();
        leaves.map_or(0, |leaves| RULE_WORDS * leaves)
    }

    // The table at the front of the lent words, and zeros behind it; where there is none, zeros alone.
    pub fn make(&mut self, out: &mut [u16]) -> Result<usize, NoTable>
        ensures policy { policy_of self.new ≡ policy_of self.old }
        ensures made { Makes (policy_of self.old) (length out.old) out.new result }
        ensures handed { Handed (policy_of self.old) out.new result }
    {
        let Some(leaves) = self.pairs.product() else {
            out.fill(0);
            return Err(NoTable::Refused(Fault::Product));
        };
        if out.len() < RULE_WORDS * leaves {
            out.fill(0);
            return Err(NoTable::Short);
        }
        self.put(out).map_err(NoTable::Refused)
    }
}

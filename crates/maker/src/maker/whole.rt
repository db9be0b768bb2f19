// The table of a whole text at the front of the lent words.
ghost use Rattle.std.specs.Prelude.{◌≡◌, ◌*◌, ◌≤◌, length};
ghost use Rattle.prescribed.specs.Fit as fit;
ghost use Rattle.leaves.specs.Pairs.{pairs_in};
ghost use Rattle.maker.specs.Making.{rule_room};
ghost use Rattle.maker.specs.Makers.{policy_of};
ghost use Rattle.maker.specs.Whole.{WholeOf, Put};

use super::Maker;
use crate::end::end;
use crate::known::Known;
use crate::making::make;
use octets::Fault;

// The most rules of a finished table.
const MOST: usize = 2048;

impl Maker {
    fn whole(&mut self, out: &mut [u16]) -> Result<usize, Fault>
        requires product { fit.product (pairs_in self.old.pairs) ≤ 65536 }
        requires room { rule_room * fit.product (pairs_in self.old.pairs) ≤ length out.old }
        ensures policy { policy_of self.new ≡ policy_of self.old }
        ensures whole { WholeOf (policy_of self.old) out.new result }
    {
        let known = Known::none(self.blank);
        let made = make(&mut self.evaluator, self.pairs.as_slice(), 0, &known, out)?;
        let Some(made) = made else {
            return Err(Fault::Rules);
        };
        let left = end(&out[..made.words]);
        if left.rules > MOST {
            return Err(Fault::Rules);
        }
        Ok(left.words)
    }

    // What the recursion left behind the table is cleared.
    pub(super) fn put(&mut self, out: &mut [u16]) -> Result<usize, Fault>
        requires product { fit.product (pairs_in self.old.pairs) ≤ 65536 }
        requires room { rule_room * fit.product (pairs_in self.old.pairs) ≤ length out.old }
        ensures policy { policy_of self.new ≡ policy_of self.old }
        ensures put { Put (policy_of self.old) (length out.old) out.new result }
    {
        match self.whole(out) {
            Ok(size) => {
                out[size..].fill(0);
                Ok(size)
            }
            Err(fault) => {
                out.fill(0);
                Err(fault)
            }
        }
    }
}

// How outs are made and read.
ghost use Rattle.std.specs.Prelude.{◌≡◌, ◌+◌, ◌<◌, ◌≤◌, List, [], ◌∷◌, ◌++◌, map, length, take};
ghost use Rattle.std.specs.List.Sorted.{IsSearchInRange, IsBinarySearchResult};
ghost use Rattle.packet.specs.Listed.{fields_of};
ghost use Rattle.packet.specs.Pairs.{setting_of};
ghost use Rattle.packet.specs.Table.{Setting};
ghost use Rattle.text.specs.Texts.{nodes_of};
ghost use Rattle.text.specs.Trees.{meaning};
ghost use Rattle.meaning.specs.Evaluators.{text_of};
ghost use Rattle.prescribed.specs.Order.{insert, rising, less_out};
ghost use Rattle.prescribed.specs.Table as prescribed;
ghost use Rattle.leaves.specs.Outs.{settings_of, outs_of, out_cmp, LeafOuts};

use super::{Out, Outs};
use meaning::Evaluator;
use octets::Fault;
use packet::{Packet, Pair};

impl Default for Out {
    ghost is_default = { λ o. settings_of o ≡ [] };

    fn default() -> Out {
        Out {
            settings: [Pair::default(); 8],
            count: 0,
        }
    }
}

impl Out {
    pub fn as_slice(&self) -> &[Pair]
        ensures value { map setting_of result.now ≡ settings_of self.now }
        ensures few { length result.now ≤ 8 }
    {
        &self.settings[..self.count]
    }

    fn push(&mut self, p: Pair)
        requires room { length (settings_of self.old) < 8 }
        ensures value { settings_of self.new ≡ settings_of self.old ++ setting_of p ∷ [] }
    {
        self.settings[self.count] = p;
        self.count += 1;
    }

    // The fields in which the copy differs from the packet.
    fn changes(p: Packet, copy: Packet) -> Out
        ensures value { settings_of result ≡ prescribed.changes 0 p.fields copy.fields }
    {
        let mut out = Out::default();
        for (f, value) in copy.fields.iter().enumerate() {
            if p.fields[f] != *value {
                out.push(Pair {
                    field: f as u8,
                    value: *value,
                });
            }
        }
        out
    }
}

impl Outs {
    fn none() -> Outs
        ensures value { outs_of result ≡ [] }
    {
        Outs {
            outs: [Out::default(); 16],
            count: 0,
        }
    }

    pub fn as_slice(&self) -> &[Out]
        ensures value { map settings_of result.now ≡ outs_of self.now }
        ensures few { length result.now ≤ 16 }
    {
        &self.outs[..self.count]
    }

    // Where o is among rising outs, or where it goes.
    fn place(&self, o: &Out) -> Result<usize, usize>
        ensures bound { IsSearchInRange result self.now.count }
        ensures place { IsBinarySearchResult (λ u. out_cmp u o.now) (take self.now.count self.now.outs) result }
    {
        self.outs[..self.count].binary_search_by(|u| u.cmp(o))
    }

    // One out more at its place in rising order, unless it is there.
    fn insert(&mut self, o: Out)
        requires room { length (outs_of self.old) < 16 }
        ensures value { (os : List (List Setting)) → outs_of self.old ≡ rising less_out os →
            outs_of self.new ≡ insert less_out (settings_of o) (outs_of self.old) }
        ensures count { length (outs_of self.new) ≤ length (outs_of self.old) + 1 }
    {
        if let Err(i) = self.place(&o) {
            self.outs.copy_within(i..self.count, i + 1);
            self.outs[i] = o;
            self.count += 1;
        }
    }

    fn from_copies(p: Packet, copies: &[Packet]) -> Outs
        requires few { length copies.now ≤ 16 }
        ensures value { outs_of result ≡ rising less_out (map (prescribed.changes 0 p.fields) (fields_of copies.now)) }
    {
        let mut all = Outs::none();
        for q in copies {
            all.insert(Out::changes(p, *q));
        }
        all
    }

    // What the evaluator's text does with the packet: the settings of each copy, each once, in rising order.
    pub fn of(evaluator: &mut Evaluator, p: Packet) -> Result<Outs, Fault>
        ensures text { text_of evaluator.new ≡ text_of evaluator.old }
        ensures cases { LeafOuts (meaning (nodes_of (text_of evaluator.old))) p.fields result }
    {
        let last = evaluator.text().nodes().len() - 1;
        let copies = evaluator.copies(last as u16, p)?;
        Ok(Outs::from_copies(p, copies.as_slice()))
    }
}

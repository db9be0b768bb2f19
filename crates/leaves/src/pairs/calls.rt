// How pairs are found and read.
ghost use Rattle.std.specs.Prelude.{◌≡◌, ◌+◌, ◌*◌, ◌<◌, ◌≤◌, List, length, IfOk, vec_len, vec_capacity};
ghost use Rattle.std.specs.List.{AllWithin};
ghost use Rattle.std.specs.List.Sorted.{IsSearchInRange, IsBinarySearchResult};
ghost use Rattle.std.specs.Ordering.{nat_cmp, ordering_then};
ghost use Rattle.packet.specs.Pairs.{want_of};
ghost use Rattle.packet.specs.Table.{Want};
ghost use Rattle.text.specs.Texts.{nodes_of};
ghost use Rattle.text.specs.Trees.{meaning};
ghost use Rattle.prescribed.specs.Fit as fit;
ghost use Rattle.prescribed.specs.Order.{insert, rising, less_want};
ghost use Rattle.prescribed.specs.Table.{pairs_of};
ghost use Rattle.leaves.specs.Pairs.{wants_of, pairs_in, Fits};

use super::Pairs;
use crate::marks::under;
use packet::Pair;
use std::alloc::{AllocError, Global};
use text::{Node, Text};

// The most pairs: a text has no more nodes.
const MOST: usize = 512;

// The most leaves of a table.
const LEAVES: usize = 65536;

// Where p is among rising pairs, or where it goes.
fn place(pairs: &[Pair], p: Pair) -> Result<usize, usize>
    ensures bound { IsSearchInRange result (length pairs.now) }
    ensures place { IsBinarySearchResult (λ q. ordering_then (nat_cmp q.field p.field) (nat_cmp q.value p.value)) pairs.now result }
{
    pairs.binary_search_by(|q| q.cmp(&p))
}

// One pair more at its place, unless it is there.
fn insert(items: &mut Vec<Pair>, p: Pair)
    requires room { vec_len items.old < vec_capacity items.old }
    ensures items { (ws : List Want) → wants_of items.old.items ≡ rising less_want ws →
        wants_of items.new.items ≡ insert less_want (want_of p) (wants_of items.old.items) }
    ensures len { vec_len items.new ≤ vec_len items.old + 1 }
    ensures capacity { vec_capacity items.old ≤ vec_capacity items.new }
{
    if let Err(i) = place(items, p) {
        let _ = items.insert(i, p);
    }
}

impl Pairs {
    // The pairs that the text tests. Asks for all the room first: nothing after it allocates.
    pub fn of(heap: Global, text: &Text) -> Result<Pairs, AllocError>
        ensures made { IfOk result (λ s. pairs_in s ≡ pairs_of (meaning (nodes_of text.now))) }
    {
        let mut items = Vec::with_capacity(heap, MOST)?;
        let row = under(text);
        for (k, n) in text.nodes().iter().enumerate() {
            // Two tests, since of one with both parts nothing would be known where it fails.
            if let Node::Is(field, value) = *n {
                if row[k] {
                    insert(&mut items, Pair { field, value });
                }
            }
        }
        Ok(Pairs { items })
    }

    pub fn as_slice(&self) -> &[Pair]
        ensures value { wants_of result.now ≡ pairs_in self.now }
        ensures few { length result.now ≤ 512 }
        ensures low { AllWithin (λ p. p.field ≤ 7) result.now 0 (length result.now) }
    {
        self.items.as_slice()
    }

    // One more than the number of values of each field, multiplied: none where that is above 65,536.
    pub fn product(&self) -> Option<usize>
        ensures cases { Fits (fit.product (pairs_in self.now)) result }
    {
        let mut all = 1;
        for f in 0..8 {
            all *= values(self.items.as_slice(), f);
            if all > LEAVES {
                return None;
            }
        }
        Some(all)
    }
}

// One more than the number of values of the field f.
fn values(pairs: &[Pair], f: u8) -> usize
    requires few { length pairs.now ≤ 512 }
    ensures value { result ≡ fit.values_of f (wants_of pairs.now) }
    ensures some { 1 ≤ result }
    ensures few { result ≤ 513 }
{
    1 + pairs.iter().filter(|p| p.field == f).count()
}

// How what was worked out is found and kept.
ghost use Rattle.std.specs.Prelude.{◌≡◌, ◌<◌, IfSome};
ghost use Rattle.std.specs.List.{Any, Contains};
ghost use Rattle.meaning.specs.Memos.{Tells, Keeps};

use super::{Entry, Kept, Row};
use crate::copies::Copies;
use packet::Packet;

// What the packet's row says of node a, if it has one.
pub fn known_test(rows: &[Row], a: usize, p: Packet) -> Option<bool>
    requires within { a < 512 }
    ensures found { IfSome result (λ b. Any (Tells p.fields a b) rows.now) }
{
    let row = rows.iter().find(|row| row.packet == p)?;
    Some(row.tests[a])
}

impl Kept {
    // What was kept of p for the packet that is asked about.
    pub fn find(&self, asked: Packet, p: Packet) -> Option<&Entry>
        ensures found { IfSome result (λ e. (e.now.packet.fields ≡ p.fields) × Contains self.now.entries.items e.now) }
    {
        if self.asked != asked {
            return None;
        }
        self.entries.iter().find(|entry| entry.packet == p)
    }

    // What came up for one packet seldom comes up for the next, so that what was kept for another one is forgotten. What comes
    // first is kept and then no more, so that packets that come up in turn don't drive one another out.
    pub fn keep(&mut self, asked: Packet, packet: Packet, copies: &Copies)
        ensures items { Keeps self.old.entries.items (record { packet = packet; copies = copies.now }) self.new.entries.items }
    {
        if self.asked != asked {
            self.asked = asked;
            self.entries.clear();
        } else if self.entries.len() == self.entries.capacity() {
            return;
        }
        let copies = *copies;
        self.entries.push_reserved(Entry { packet, copies });
    }
}

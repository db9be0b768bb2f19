// Which rule decides about a packet, and what it gives.
ghost use Rattle.std.specs.Prelude.{◌≡◌};
ghost use Rattle.packet.specs.Copies.{listing};
ghost use Rattle.packet.specs.Packet.{once};
ghost use Rattle.packet.specs.Table.{set_all, outputs};
ghost use Rattle.table.specs.Views.{Decided, rules_in, settings_in, outs_in};

use crate::outs::Outs;
use crate::pairs::Pairs;
use crate::rules::Rule;
use crate::tables::Table;
use packet::{Copies, Packet};

// The first rule whose wants the packet meets.
#[tactic(auto, unfolding(packet::specs::Table::meets_all, packet::specs::Table::decided))]
pub(crate) fn first_match<'a>(table: Table<'a>, p: Packet) -> Option<Rule<'a>>
    ensures cases { Decided (rules_in table.entry) p.fields result }
{
    'rules: for rule in table.rules() {
        for want in rule.wants {
            if !want.is_met(p) {
                continue 'rules;
            }
        }
        return Some(rule);
    }
    None
}

// The packet with the settings of an out.
#[tactic(auto, unfolding(packet::specs::Table::set_all))]
fn copy(out: Pairs<'_>, p: Packet) -> Packet
    ensures value { result.fields ≡ set_all (settings_in out.entry) p.fields }
{
    let mut q = p;
    for setting in out {
        q = setting.set(q);
    }
    q
}

// What the outs make of the packet, each copy once.
#[tactic(auto, using(crate::proofs::Gathering::gather), unfolding(packet::specs::Table::outputs))]
pub(crate) fn copies(outs: Outs<'_>, p: Packet) -> Copies<16>
    ensures value { listing result ≡ once (outputs (outs_in outs.entry) p.fields) }
{
    let mut sent = Copies::none();
    for out in outs {
        sent.add(copy(out, p)).unwrap();
    }
    sent
}

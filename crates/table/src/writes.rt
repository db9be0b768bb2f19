// Writing a table as bytes. There is room for all that is written.
ghost use Rattle.std.specs.Prelude.{◌≡◌, ◌+◌, ◌≤◌, ◌++◌, length, vec_len, vec_capacity, MatchResult};
ghost use Rattle.std.specs.List.{flat_map};
ghost use Rattle.table.specs.Bytes.{out_bytes, outs_bytes, rule_bytes, table_bytes};
ghost use Rattle.table.specs.Views.{settings_in, outs_in, rule_of, rules_in};

use crate::outs::Outs;
use crate::pairs::Pairs;
use crate::rules::Rule;
use crate::tables::Table;
use std::alloc::AllocError;

fn pairs(out: &mut Vec<u8>, pairs: Pairs<'_>)
    requires room { vec_len out.old + length (out_bytes (settings_in pairs)) ≤ vec_capacity out.old }
    ensures items { out.new.items ≡ out.old.items ++ out_bytes (settings_in pairs.entry) }
    ensures capacity { vec_capacity out.old ≤ vec_capacity out.new }
{
    out.push_reserved(pairs.number());
    for pair in pairs {
        let [high, low] = pair.value.to_be_bytes();
        out.extend_from_slice(&[pair.field, high, low]).unwrap();
    }
}

fn outs(out: &mut Vec<u8>, outs: Outs<'_>)
    requires room { vec_len out.old + length (outs_bytes (outs_in outs)) ≤ vec_capacity out.old }
    ensures items { out.new.items ≡ out.old.items ++ outs_bytes (outs_in outs.entry) }
    ensures capacity { vec_capacity out.old ≤ vec_capacity out.new }
{
    out.push_reserved(outs.number());
    for settings in outs {
        pairs(out, settings);
    }
}

fn rule(out: &mut Vec<u8>, rule: Rule<'_>)
    requires room { vec_len out.old + length (rule_bytes (rule_of rule)) ≤ vec_capacity out.old }
    ensures items { out.new.items ≡ out.old.items ++ rule_bytes (rule_of rule.entry) }
    ensures capacity { vec_capacity out.old ≤ vec_capacity out.new }
{
    pairs(out, rule.wants);
    outs(out, rule.outs);
}

fn rules(out: &mut Vec<u8>, table: Table<'_>)
    requires room { vec_len out.old + length (flat_map rule_bytes (rules_in table)) ≤ vec_capacity out.old }
    ensures items { out.new.items ≡ out.old.items ++ flat_map rule_bytes (rules_in table.entry) }
{
    for r in table.rules() {
        rule(out, r);
    }
}

// Puts the table's bytes behind what is there, or changes nothing where no memory is left.
#[tactic(auto, using(crate::proofs::Sizes::bytes_few, crate::proofs::Sizes::count_few))]
pub(crate) fn table(out: &mut Vec<u8>, table: Table<'_>) -> Result<(), AllocError>
    ensures cases { MatchResult result
        (λ _. out.new.items ≡ out.old.items ++ table_bytes (rules_in table.entry))
        (λ _. out.new.items ≡ out.old.items) }
{
    let count = table.rule_count() as u16;
    out.reserve(2 + 2 * table.words().len())?;
    out.extend_from_slice(&count.to_be_bytes()).unwrap();
    rules(out, table);
    Ok(())
}

// On how many fields of a packet, from field 0 on, it rests what a policy does with it. All of it is in specs/ and proofs/.
#![tactic(auto)]

ghost use Rattle.levels.specs.Laws as laws;

// Leaves of a table that agree on those fields are alike.
pub fn leaves_are_alike()
    ensures alike { laws.LeavesAlike }
{}

// One rule stands for all leaves below where no such field is still to be asked for.
pub fn one_rule_stands()
    ensures rule { laws.OneRuleBelow }
{}

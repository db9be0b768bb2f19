// Whether words are a table.
ghost use Rattle.std.specs.Prelude.{◌≡◌, true, false, MatchOption};
ghost use Rattle.table.specs.Words.{sound, are_pairs, few_in, past_few, outs_in, past_outs, rule_in, past_rule};

// The highest field, and the most pairs in a row, outs of a rule, and rules.
const LAST_FIELD: u16 = 7;

const MOST_PAIRS: u16 = 8;

const MOST_OUTS: u16 = 16;

const MOST_RULES: u16 = 2048;

// Just pairs, each of a field and a value.
#[tactic(auto, unfolding(crate::specs::Words::are_pairs))]
fn are_pairs(words: &[u16]) -> bool
    ensures value { result ≡ are_pairs words.now }
{
    match words {
        [] => true,
        [field, _, rest @ ..] => *field <= LAST_FIELD && are_pairs(rest),
        _ => false,
    }
}

// What is behind at most 8 pairs with their number in front, if they are there.
fn past_few(words: &[u16]) -> Option<&[u16]>
    ensures cases { MatchOption result (few_in words.now ≡ false) (λ rest. (few_in words.now ≡ true) × (rest.now ≡ past_few words.now)) }
{
    let [number, rest @ ..] = words else {
        return None;
    };
    if *number > MOST_PAIRS {
        return None;
    }
    let (pairs, rest) = rest.split_at_checked(2 * usize::from(*number))?;
    if !are_pairs(pairs) {
        return None;
    }
    Some(rest)
}

// What is behind at most 16 outs with their number in front, if they are there.
fn past_outs(words: &[u16]) -> Option<&[u16]>
    ensures cases { MatchOption result (outs_in words.now ≡ false) (λ rest. (outs_in words.now ≡ true) × (rest.now ≡ past_outs words.now)) }
{
    let [number, rest @ ..] = words else {
        return None;
    };
    if *number > MOST_OUTS {
        return None;
    }
    let mut rest = rest;
    for _i in 0..*number {
        rest = past_few(rest)?;
    }
    Some(rest)
}

// What is behind the rule in front, if one is there.
fn past_rule(words: &[u16]) -> Option<&[u16]>
    ensures cases { MatchOption result (rule_in words.now ≡ false) (λ rest. (rule_in words.now ≡ true) × (rest.now ≡ past_rule words.now)) }
{
    past_outs(past_few(words)?)
}

// Whether the words are a table.
pub fn is_table(words: &[u16]) -> bool
    ensures value { result ≡ sound words.now }
{
    let mut rest = words;
    for _i in 0..MOST_RULES {
        if rest.is_empty() {
            return true;
        }
        let Some(behind) = past_rule(rest) else {
            return false;
        };
        rest = behind;
    }
    rest.is_empty()
}

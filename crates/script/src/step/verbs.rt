// The words that begin a step, and those that name an order.
ghost use Rattle.std.specs.Prelude.{◌≡◌, None, Some, MatchResult};
ghost use Rattle.octets.specs.declared.fault.Fault.TheVariants.{Form};
ghost use Rattle.script.specs.Verbs as spec;

use octets::Fault;
use wire::order::Kind;

#[derive(Clone, Copy, Debug, PartialEq, Eq)]
pub enum Verb {
    Change,
    Enter,
    Arrive,
    Lose,
    Order,
    Answer,
    Raw,
    Show,
}

// Whom raw bytes reach.
#[derive(Clone, Copy, Debug, PartialEq, Eq)]
pub enum Target {
    Switch,
    Desk,
}

impl TryFrom<&[u8]> for Verb {
    type Error = Fault;

    #[tactic(auto, unfolding(notation::specs::Kinds::same_word))]
    fn try_from(word: &[u8]) -> Result<Verb, Fault>
        ensures cases { MatchResult result (λ v. spec.verb_of word.now ≡ Some v) (λ e. (spec.verb_of word.now ≡ None) × (e ≡ Form)) }
    {
        let is = |name: &[u8]| word == name;
        if is(b"change") {
            Ok(Verb::Change)
        } else if is(b"enter") {
            Ok(Verb::Enter)
        } else if is(b"arrive") {
            Ok(Verb::Arrive)
        } else if is(b"lose") {
            Ok(Verb::Lose)
        } else if is(b"order") {
            Ok(Verb::Order)
        } else if is(b"answer") {
            Ok(Verb::Answer)
        } else if is(b"raw") {
            Ok(Verb::Raw)
        } else if is(b"show") {
            Ok(Verb::Show)
        } else {
            Err(Fault::Form)
        }
    }
}

impl TryFrom<&[u8]> for Target {
    type Error = Fault;

    #[tactic(auto, unfolding(notation::specs::Kinds::same_word))]
    fn try_from(word: &[u8]) -> Result<Target, Fault>
        ensures cases { MatchResult result (λ t. spec.target_of word.now ≡ Some t) (λ e. (spec.target_of word.now ≡ None) × (e ≡ Form)) }
    {
        let is = |name: &[u8]| word == name;
        if is(b"switch") {
            Ok(Target::Switch)
        } else if is(b"desk") {
            Ok(Target::Desk)
        } else {
            Err(Fault::Form)
        }
    }
}

// The kind of an order. It is a type of another crate, so this is no `TryFrom`.
#[tactic(auto, unfolding(notation::specs::Kinds::same_word))]
pub fn order_kind(word: &[u8]) -> Result<Kind, Fault>
    ensures cases { MatchResult result (λ k. spec.order_kind_of word.now ≡ Some k) (λ e. (spec.order_kind_of word.now ≡ None) × (e ≡ Form)) }
{
    let is = |name: &[u8]| word == name;
    if is(b"install") {
        Ok(Kind::Install)
    } else if is(b"stamp") {
        Ok(Kind::Stamp)
    } else if is(b"round") {
        Ok(Kind::Round)
    } else if is(b"remove") {
        Ok(Kind::Remove)
    } else {
        Err(Fault::Form)
    }
}

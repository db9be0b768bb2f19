// The first word of a node.
ghost use Rattle.std.specs.Prelude.{◌≡◌, None, Some, MatchResult};
ghost use Rattle.octets.specs.declared.fault.Fault.TheVariants.{Form};
ghost use Rattle.notation.specs.Kinds.{kind_of};

use octets::Fault;

#[derive(Clone, Copy, Debug, PartialEq, Eq)]
pub enum Kind {
    Always,
    Is,
    Both,
    Either,
    Not,
    Keep,
    Put,
    And,
    Then,
}

impl TryFrom<&[u8]> for Kind {
    type Error = Fault;

    #[tactic(auto, unfolding(crate::specs::Kinds::same_word))]
    fn try_from(word: &[u8]) -> Result<Kind, Fault>
        ensures cases { MatchResult result (λ k. kind_of word.now ≡ Some k) (λ e. (kind_of word.now ≡ None) × (e ≡ Form)) }
    {
        let is = |name: &[u8]| word == name;
        if is(b"always") {
            Ok(Kind::Always)
        } else if is(b"is") {
            Ok(Kind::Is)
        } else if is(b"both") {
            Ok(Kind::Both)
        } else if is(b"either") {
            Ok(Kind::Either)
        } else if is(b"not") {
            Ok(Kind::Not)
        } else if is(b"keep") {
            Ok(Kind::Keep)
        } else if is(b"put") {
            Ok(Kind::Put)
        } else if is(b"and") {
            Ok(Kind::And)
        } else if is(b"then") {
            Ok(Kind::Then)
        } else {
            Err(Fault::Form)
        }
    }
}

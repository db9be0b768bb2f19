// The words that begin a line of a header.
ghost use Rattle.std.specs.Prelude.{◌≡◌, None, Some, MatchResult};
ghost use Rattle.octets.specs.declared.fault.Fault.TheVariants.{Form};
ghost use Rattle.script.specs.Headings as spec;

use octets::Fault;

#[derive(Clone, Copy, Debug, PartialEq, Eq)]
pub enum Heading {
    Net,
    Cable,
    Outside,
    Text,
    Start,
}

impl TryFrom<&[u8]> for Heading {
    type Error = Fault;

    #[tactic(auto, unfolding(notation::specs::Kinds::same_word))]
    fn try_from(word: &[u8]) -> Result<Heading, Fault>
        ensures cases { MatchResult result (λ h. spec.heading_of word.now ≡ Some h) (λ e. (spec.heading_of word.now ≡ None) × (e ≡ Form)) }
    {
        let is = |name: &[u8]| word == name;
        if is(b"net") {
            Ok(Heading::Net)
        } else if is(b"cable") {
            Ok(Heading::Cable)
        } else if is(b"outside") {
            Ok(Heading::Outside)
        } else if is(b"text") {
            Ok(Heading::Text)
        } else if is(b"start") {
            Ok(Heading::Start)
        } else {
            Err(Fault::Form)
        }
    }
}

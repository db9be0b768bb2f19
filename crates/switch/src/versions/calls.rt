// How the versions are read and changed.
ghost use Rattle.std.specs.Prelude.{◌≡◌, ◌<◌, ◌≤◌, ◌==◌, false, [], ◌∷◌, length, IfSome, MatchOption, MatchResult};
ghost use Rattle.std.specs.List.{find};
ghost use Rattle.run.specs.Switch.{knows, without};
ghost use Rattle.switch.specs.Holding.{Places, held_in, slots, used};
ghost use Rattle.switch.specs.Model.{Added, Lies, held_of, one};

use super::{Full, Held, SLOTS, TakenIn, Versions};

impl Versions {
    // Version 0, in place 0.
    pub fn first() -> Versions
        ensures value { (tables : Places) → held_of tables result ≡ one 0 (tables 0) ∷ [] }
    {
        let first = Held {
            version: 0,
            place: 0,
        };
        Versions {
            held: [Some(first), None],
        }
    }

    fn find(self, version: u16) -> Option<Held>
        ensures value { result ≡ find (λ x. x.version == version) (held_in self.held) }
    {
        self.held
            .iter()
            .copied()
            .flatten()
            .find(|held| held.version == version)
    }

    // The place of a version that is there.
    pub fn place(self, version: u16) -> Option<usize>
        ensures within { IfSome result (λ p. p < slots) }
        ensures cases { (tables : Places) → Lies version (held_of tables self) tables result }
    {
        self.find(version).map(|held| held.place)
    }

    pub fn knows(self, version: u16) -> bool
        ensures value { (tables : Places) → result ≡ knows version (held_of tables self) }
    {
        self.find(version).is_some()
    }

    fn is_used(self, place: usize) -> bool
        ensures value { result ≡ used place (held_in self.held) }
    {
        self.held
            .iter()
            .copied()
            .flatten()
            .any(|held| held.place == place)
    }

    // A place that no version has.
    fn free(self) -> Option<usize>
        ensures cases { MatchOption result (slots ≤ length (held_in self.held)) (λ p. (p < slots) × (used p (held_in self.held) ≡ false)) }
    {
        (0..SLOTS).find(|place| !self.is_used(*place))
    }

    // One version more, behind the others.
    pub fn take_in(self, version: u16) -> Result<TakenIn, Full>
        ensures cases { MatchResult result (λ x. Added version self x.versions x.place) (λ _. length (held_in self.held) ≡ slots) }
    {
        let ([first, None] | [None, first]) = self.held else {
            return Err(Full);
        };
        let place = self.free().ok_or(Full)?;
        let versions = Versions {
            held: [first, Some(Held { version, place })],
        };
        Ok(TakenIn { versions, place })
    }

    pub fn without(self, version: u16) -> Versions
        ensures after { (tables : Places) → held_of tables result ≡ without version (held_of tables self) }
    {
        Versions {
            held: self
                .held
                .map(|held| held.filter(|held| held.version != version)),
        }
    }
}

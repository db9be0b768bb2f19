// Marks, and the latest one that came in at each port.
ghost use Rattle.std.specs.Prelude.{◌≡◌, ℕ, ◌<◌, ◌≤◌, length};
ghost use Rattle.run.specs.Net.{Wire};
ghost use Rattle.run.specs.Switch.{all_reach, later, reaches};
ghost use Rattle.switch.specs.Marking.{Drawn, kept, latest_of, mark_of, no_marks, ports};

use wire::Mark;

// The ports that a switch can have.
pub const PORTS: usize = 32;

// Rounds count from 1: version 0 and round 0 stand for no mark. It is no Option, since the run takes this very mark for one that has come everywhere.
pub const NO_MARK: Mark = Mark {
    version: 0,
    round: 0,
};

#[derive(Clone, Copy)]
pub struct Marks {
    latest: [Mark; PORTS],
}

// Versions first, then rounds.
pub fn is_later(mark: Mark, other: Mark) -> bool
    ensures value { result ≡ later (mark_of mark) (mark_of other) }
{
    mark > other
}

// The latest mark is of the same version, and of the same round or a higher one.
pub fn reaches(latest: Mark, mark: Mark) -> bool
    ensures value { result ≡ reaches (mark_of mark) (mark_of latest) }
{
    latest.version == mark.version && latest.round >= mark.round
}

impl Marks {
    pub fn none() -> Marks
        ensures value { latest_of result ≡ no_marks }
    {
        Marks {
            latest: [NO_MARK; PORTS],
        }
    }

    pub fn latest(self, port: usize) -> Mark
        ensures value { mark_of result ≡ latest_of self port }
    {
        self.latest.get(port).copied().unwrap_or(NO_MARK)
    }

    // Keeps a mark that is later than the latest at its port. There is nothing to keep where there is no port.
    pub fn keep(mut self, port: usize, mark: Mark) -> Marks
        ensures after { port < ports → latest_of result ≡ kept port (mark_of mark) (latest_of self) }
        ensures same { ports ≤ port → latest_of result ≡ latest_of self }
    {
        if port < PORTS && is_later(mark, self.latest[port]) {
            self.latest[port] = mark;
        }
        self
    }

    // The latest marks at all ports with a cable have come as far as this one.
    pub fn all_reached(self, mark: Mark, cables: &[bool]) -> bool
        ensures value { (wire : ℕ → Wire) → Drawn cables.now wire → result ≡ all_reach (length cables.now) wire (mark_of mark) (latest_of self) }
    {
        cables.iter().enumerate().all(|(port, cable)| !*cable || reaches(self.latest(port), mark))
    }
}

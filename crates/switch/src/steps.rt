// What a switch makes of orders and marks, and which orders are done.
ghost use Rattle.std.specs.Prelude.{◌≡◌, ℕ, ◌<◌, ◌≤◌, length, IfSome};
ghost use Rattle.packet.specs.Table.{Table};
ghost use Rattle.run.specs.Net.{Wire};
ghost use Rattle.run.specs.Order as order;
ghost use Rattle.run.specs.Switch.{done, first_switch, keep_mark, remove, stamp_with};
ghost use Rattle.switch.specs.Holding.{Places, slots};
ghost use Rattle.switch.specs.Marking.{Drawn, mark_of, ports};
ghost use Rattle.switch.specs.Model.{Lies, TookIn, switch_of};

use crate::versions::{Full, TakenIn, Versions};
use crate::{Mark, Marks, Switch};

// A switch that has taken in a version, and the place that its table goes into.
#[derive(Clone, Copy)]
pub struct Installed {
    pub switch: Switch,
    pub place: usize,
}

impl Switch {
    // A switch with version 0, whose table lies in place 0.
    pub fn first() -> Switch
        ensures after { (tables : Places) → switch_of tables result ≡ first_switch (tables 0) }
    {
        Switch {
            stamp: 0,
            floor: 0,
            versions: Versions::first(),
            marks: Marks::none(),
        }
    }

    pub fn stamp(self) -> u16
        ensures value { (tables : Places) → result ≡ (switch_of tables self).stamp }
    {
        self.stamp
    }

    pub fn floor(self) -> u16
        ensures value { (tables : Places) → result ≡ (switch_of tables self).floor }
    {
        self.floor
    }

    // The place in which the table of a version lies.
    pub fn place(self, version: u16) -> Option<usize>
        ensures within { IfSome result (λ p. p < slots) }
        ensures cases { (tables : Places) → Lies version (switch_of tables self).held tables result }
    {
        self.versions.place(version)
    }

    // Takes in a version. If it is below the floor or there, nothing is to be done.
    pub fn install(self, version: u16) -> Result<Option<Installed>, Full>
        ensures after { TookIn version self result }
    {
        if version < self.floor || self.versions.knows(version) {
            return Ok(None);
        }
        let TakenIn { versions, place } = self.versions.take_in(version)?;
        let switch = Switch { versions, ..self };
        Ok(Some(Installed { switch, place }))
    }

    // Gives the version to what comes in from outside, if it is above the stamp and its table is there.
    pub fn stamp_with(self, version: u16) -> Switch
        ensures after { (tables : Places) → switch_of tables result ≡ stamp_with version (switch_of tables self) }
    {
        if version <= self.stamp || !self.versions.knows(version) {
            return self;
        }
        Switch {
            stamp: version,
            ..self
        }
    }

    // Throws a table below the stamp away, and raises the floor above its version.
    pub fn remove(self, version: u16) -> Switch
        ensures after { (tables : Places) → switch_of tables result ≡ remove version (switch_of tables self) }
    {
        if version >= self.stamp {
            return self;
        }
        Switch {
            floor: self.floor.max(version + 1),
            versions: self.versions.without(version),
            ..self
        }
    }

    // A mark came in at a port.
    pub fn keep_mark(self, port: usize, mark: Mark) -> Switch
        ensures after { port < ports → (tables : Places) → switch_of tables result ≡ keep_mark port (mark_of mark) (switch_of tables self) }
        ensures same { ports ≤ port → (tables : Places) → switch_of tables result ≡ switch_of tables self }
    {
        Switch {
            marks: self.marks.keep(port, mark),
            ..self
        }
    }

    pub fn has_installed(self, version: u16) -> bool
        ensures value { (tables : Places) (n : ℕ) (wire : ℕ → Wire) (t : Table) → result ≡ done n wire (order.Install version t) (switch_of tables self) }
    {
        self.versions.knows(version)
    }

    pub fn has_stamped(self, version: u16) -> bool
        ensures value { (tables : Places) (n : ℕ) (wire : ℕ → Wire) → result ≡ done n wire (order.Stamp version) (switch_of tables self) }
    {
        self.stamp == version
    }

    // `cables`: which ports have one.
    pub fn has_reached(self, mark: Mark, cables: &[bool]) -> bool
        ensures value { (tables : Places) (wire : ℕ → Wire) → Drawn cables.now wire → result ≡ done (length cables.now) wire (order.Round mark.version mark.round) (switch_of tables self) }
    {
        self.marks.all_reached(mark, cables)
    }

    pub fn has_removed(self, version: u16) -> bool
        ensures value { (tables : Places) (n : ℕ) (wire : ℕ → Wire) → result ≡ done n wire (order.Remove version) (switch_of tables self) }
    {
        !self.versions.knows(version)
    }
}

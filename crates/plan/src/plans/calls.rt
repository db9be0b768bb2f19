// What a plan has for a switch.
ghost use Rattle.std.specs.Prelude.{◌≡◌, [], length};
ghost use Rattle.table.specs.Views.{rules_in};
ghost use Rattle.plan.specs.Views.{plan_of, texts_of};

use super::Plan;
use table::Table;

impl Plan {
    // How many switches it is for.
    pub fn switches(&self) -> usize
        ensures value { result ≡ length (texts_of self.now) }
    {
        self.parts.len()
    }

    // The table of a switch. A switch that isn't there has no rules.
    pub fn table(&self, switch: u8) -> Table<'_>
        ensures value { rules_in result ≡ (plan_of self.now).table switch }
    {
        match self.parts.get(usize::from(switch)) {
            Some(part) => part.table(),
            None => Table::new(&[]),
        }
    }
}

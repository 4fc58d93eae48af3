//! `roster` has a file of its own: its clause names the row of `RosterHold`, which the file that declares it cannot import.

use crate::hold::RosterHold;
use crate::roster::Roster;

impl<'a> RosterHold<'a> {
    /// The roster that is held: what is done to it is done to the cell's.
    pub fn roster(&mut self) -> &mut Roster
        ensures* writes_back { sem 𝓛 (follows (the_row (record { mir = named 1; lft = [] })) roster_contracts.the_row self.entry.ghost_name result.ghost_name (with_roster self.old)) }
        ensures value { result.now ≡ self.old.roster }
    {
        self.roster.roster.as_mut()
    }
}

ghost use Rattle.std.specs.Prelude.{◌≡◌, []};
ghost use Rattle.std.specs.Borrow.{sem, follows};
ghost use mir.Syntax.{named};
ghost use Rattle.ti_roster.specs.contracts.roster.Roster as roster_contracts;
ghost use Rattle.ti_roster.specs.contracts.hold.RosterHold.{the_row};
ghost use Rattle.ti_roster.specs.Seats.{with_roster};

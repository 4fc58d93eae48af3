//! What the roster tells of the events of threads' lives.

use crate::life_event::ToldLife;
use crate::life_modes::LifeModes;
use crate::roster::Roster;

impl Roster {
    /// How many events of threads' lives have happened.
    pub fn events(&self) -> u64
        ensures { result ≡ length (life_of self.now.items) }
    {
        self.life.count()
    }

    /// What an agent is told next of threads' lives, by its modes: the first that it is to be told and that is
    /// kept, how many were lost before it, and where it looks next.
    pub fn tell(&self, modes: LifeModes) -> ToldLife
        ensures { result ≡ told_of (life_of self.now.items) modes }
    {
        self.life.tell(modes)
    }

    /// What is always true of the events of threads' lives (this profile): none happens twice. A thread starts after it was
    /// attached, ends after it has started, and is given back after that. Nothing happens to it after it was given back.
    pub fn facts(&self)
        ensures order { AreInOrder (life_of self.now.items) }
    {
        let _ = &self.life;
    }
}

ghost use Rattle.std.specs.Prelude.{◌≡◌, length};
ghost use Rattle.ti_roster.specs.Events.{AreInOrder, life_of};
ghost use Rattle.ti_roster.specs.Modes.{told_of};

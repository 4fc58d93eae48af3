//! What an environment keeps for itself: its word and its capabilities, under their JVM TI names.

use crate::env::Env;
use crate::home::Home;
use ti_types::{Caps, TiError};

impl<H: Home> Env<H> {
    /// GetEnvironmentLocalStorage (JVM TI 11): the environment's own word, 0 until it is set. It has no error.
    pub fn get_environment_local_storage(&self) -> Result<u64, TiError>
        ensures { result ≡ Ok self.now.env.state.word }
    {
        Ok(self.state.word())
    }

    /// SetEnvironmentLocalStorage (JVM TI 11): sets the environment's own word. It has no error.
    pub fn set_environment_local_storage(&mut self, word: u64) -> Result<(), TiError>
        ensures ok { IsOk result }
        ensures set { self.new.env ≡ record { env = self.old.env.env; state = with_word self.old.env.state word; desks = self.old.env.desks } }
        ensures home { self.new.home ≡ self.old.home }
    {
        self.state.set_word(word);
        Ok(())
    }

    /// AddCapabilities (JVM TI 11): adds all of these capabilities. 98 NOT_AVAILABLE if one of them cannot be had, or not at
    /// the environment's home. Then nothing changes.
    pub fn add_capabilities(&mut self, caps: Caps) -> Result<(), TiError>
        ensures available { IsOk result ↔ ((has_all (H.potential self.old.home) caps && can_be_had caps) ≡ true) }
        ensures added { OnOk result (self.new.env ≡ record { env = self.old.env.env; state = with_caps self.old.env.state (caps_with self.old.env.state.caps caps); desks = self.old.env.desks }) }
        ensures refused { IfErr result (λ e. e ≡ NotAvailable) }
        ensures unchanged { OnErr result (self.new ≡ self.old) }
        ensures home { self.new.home ≡ self.old.home }
    {
        if !self.home.potential().has(caps) {
            return Err(TiError::NotAvailable);
        }
        self.state.add(caps)
    }

    /// RelinquishCapabilities (JVM TI 11): takes these capabilities away. One that the environment does not have is no
    /// error.
    pub fn relinquish_capabilities(&mut self, caps: Caps) -> Result<(), TiError>
        ensures ok { IsOk result }
        ensures gone { self.new.env ≡ record { env = self.old.env.env; state = with_caps self.old.env.state (caps_without self.old.env.state.caps caps); desks = self.old.env.desks } }
        ensures home { self.new.home ≡ self.old.home }
    {
        self.state.relinquish(caps);
        Ok(())
    }

    /// GetPotentialCapabilities (JVM TI 11): the capabilities that can be had. Those are `can_suspend` and `can_pop_frame`, or
    /// what the environment's home says. It has no error.
    pub fn get_potential_capabilities(&self) -> Result<Caps, TiError>
        ensures { result ≡ Ok (H.potential self.now.home) }
    {
        Ok(self.home.potential())
    }

    /// GetCapabilities (JVM TI 11): the capabilities that the environment has. It has no error.
    pub fn get_capabilities(&self) -> Result<Caps, TiError>
        ensures { result ≡ Ok self.now.env.state.caps }
    {
        Ok(self.state.caps())
    }
}

ghost use Rattle.std.specs.Prelude.{◌≡◌, ◌↔◌, ◌&&◌, true, Ok, IfErr, OnOk, OnErr, IsOk};
ghost use Rattle.ti_types.specs.Caps.{caps_with, caps_without, can_be_had, has_all};
ghost use Rattle.ti_types.specs.declared.error.TiError.TheVariants.{NotAvailable};
ghost use Rattle.ti_env.specs.Env.{with_caps, with_word};

//! The steps of a trace of several threads. None of them waits.

use crate::gathering::{Gathering, Phase};
use crate::home::Home;
use crate::traces::told_of;
use ti_types::TiError;
use ti_vmop::{go_again_now, go_one_now, read_one_now, see_one_now, stop_one_now};

impl<H: Home> Gathering<H> {
    /// Stops the next thread. 211 if a stop is in force there, and 215 if its cell is in use.
    fn stop_next(&mut self, stopped: usize) -> Result<(), TiError>
        requires at { self.old.trace.phase ≡ phase.Stopping stopped }
        requires next { stopped < length self.old.trace.stopping }
        ensures same { IsSameWork self.old.trace self.new.trace }
        ensures on { OnOk result (self.new.trace.phase ≡ phase.Stopping (stopped + 1)) }
        ensures stays { OnErr result (self.new.trace.phase ≡ self.old.trace.phase) }
        ensures why { IfErr result (λ e. IsBarred self.old.trace self.new.trace e) }
        ensures home { self.new.home ≡ self.old.home }
    {
        let (place, _reads) = self.stopping[stopped];
        stop_one_now(&mut self.desks[place.0 as usize])?;
        self.state.spend(place);
        self.phase = Phase::Stopping(stopped + 1);
        Ok(())
    }

    /// Sees that the next thread is standing. 213 if it is not, and 215 if its cell is in use.
    fn see_next(&mut self, seen: usize) -> Result<(), TiError>
        requires at { self.old.trace.phase ≡ phase.Seeing seen }
        requires next { seen < length self.old.trace.stopping }
        ensures same { IsSameWork self.old.trace self.new.trace }
        ensures on { OnOk result (self.new.trace.phase ≡ phase.Seeing (seen + 1)) }
        ensures stays { OnErr result (self.new.trace.phase ≡ self.old.trace.phase) }
        ensures why { IfErr result (λ e. IsBarred self.old.trace self.new.trace e) }
        ensures home { self.new.home ≡ self.old.home }
    {
        let (place, _reads) = self.stopping[seen];
        see_one_now(&mut self.desks[place.0 as usize])?;
        self.phase = Phase::Seeing(seen + 1);
        Ok(())
    }

    /// Reads the next thread. 215 if its cell is in use.
    fn read_next(&mut self) -> Result<(), TiError>
        requires at { self.old.trace.phase ≡ phase.Reading }
        requires next { length self.old.trace.infos < length self.old.trace.places }
        ensures same { IsSameWork self.old.trace self.new.trace }
        ensures on { OnOk result (length self.new.trace.infos ≡ length self.old.trace.infos + 1) }
        ensures stays { self.new.trace.phase ≡ self.old.trace.phase }
        ensures why { IfErr result (λ e. IsBarred self.old.trace self.new.trace e) }
        ensures home { self.new.home ≡ self.old.home }
    {
        let place = self.places[self.infos.len()];
        let Some(buf) = self.bufs.pop() else {
            unreachable!()
        };
        let desk = &mut self.desks[place.0 as usize];
        let thread = desk.thread();
        match read_one_now(desk, self.max_count, buf) {
            Ok(answer) => {
                self.state.spend(place);
                self.infos.push_reserved(told_of(thread, answer));
                Ok(())
            }
            Err(buf) => {
                self.bufs.push_reserved(buf);
                Err(TiError::Busy)
            }
        }
    }

    /// Lets the next thread go. 215 if its cell is in use.
    fn go_next(&mut self, gone: usize) -> Result<(), TiError>
        requires at { self.old.trace.phase ≡ phase.LettingGo gone }
        requires next { gone < length self.old.trace.stopping }
        ensures same { IsSameWork self.old.trace self.new.trace }
        ensures on { OnOk result (self.new.trace.phase ≡ phase.LettingGo (gone + 1)) }
        ensures stays { OnErr result (self.new.trace.phase ≡ self.old.trace.phase) }
        ensures why { IfErr result (λ e. IsBarred self.old.trace self.new.trace e) }
        ensures home { self.new.home ≡ self.old.home }
    {
        let (place, _reads) = self.stopping[gone];
        go_one_now(&mut self.desks[place.0 as usize])?;
        self.phase = Phase::LettingGo(gone + 1);
        Ok(())
    }

    /// The same, after it was given up.
    fn go_again_next(&mut self, stopped: usize, gone: usize) -> Result<(), TiError>
        requires at { self.old.trace.phase ≡ phase.GivingUp stopped gone }
        requires next { gone < stopped }
        ensures same { IsSameWork self.old.trace self.new.trace }
        ensures on { OnOk result (self.new.trace.phase ≡ phase.GivingUp stopped (gone + 1)) }
        ensures stays { OnErr result (self.new.trace.phase ≡ self.old.trace.phase) }
        ensures why { IfErr result (λ e. IsBarred self.old.trace self.new.trace e) }
        ensures home { self.new.home ≡ self.old.home }
    {
        let (place, _reads) = self.stopping[gone];
        go_again_now(&mut self.desks[place.0 as usize])?;
        self.phase = Phase::GivingUp(stopped, gone + 1);
        Ok(())
    }

    /// Goes on with the trace: it does one thing at one thread, or passes on from stops to looks, to reads and to gos. It tries
    /// to hold a cell once at most.
    ///
    /// Returns whether the trace has come to its end. While it has not, there is more to do.
    ///
    /// The error is one of these. Then the trace has come as far as it had, and goes on later.
    ///
    /// - 211 ALREADY_STOPPED (this profile): the next thread to stop is stopped by another environment.
    /// - 213 STILL_RUNNING (this profile): the next thread to read runs. It has not come to its next poll.
    /// - 215 (this profile: `Busy`): the next thread's cell is in use. Nothing has changed.
    pub fn step(&mut self) -> Result<bool, TiError>
        ensures same { IsSameWork self.old.trace self.new.trace }
        ensures given_up { is_given_up self.new.trace.phase ≡ is_given_up self.old.trace.phase }
        ensures on { OnOk result (GoesOn self.old.trace self.new.trace) }
        ensures ended { IfOk result (λ over. over ≡ has_ended self.new.trace) }
        ensures why { IfErr result (λ e. IsBarred self.old.trace self.new.trace e) }
        ensures stays { OnErr result (self.new.trace.phase ≡ self.old.trace.phase) }
        ensures home { self.new.home ≡ self.old.home }
    {
        let count = self.stopping.len();
        match self.phase {
            Phase::Stopping(stopped) if stopped < count => self.stop_next(stopped)?,
            Phase::Stopping(_) => self.phase = Phase::Seeing(0),
            Phase::Seeing(seen) if seen < count => self.see_next(seen)?,
            Phase::Seeing(_) => self.phase = Phase::Reading,
            Phase::Reading if self.infos.len() < self.places.len() => self.read_next()?,
            Phase::Reading => self.phase = Phase::LettingGo(0),
            Phase::LettingGo(gone) if gone < count => self.go_next(gone)?,
            Phase::LettingGo(_) => (),
            Phase::GivingUp(stopped, gone) if gone < stopped => self.go_again_next(stopped, gone)?,
            Phase::GivingUp(_, _) => (),
        }
        Ok(self.has_ended())
    }
}

ghost use Rattle.std.specs.Prelude.{◌≡◌, ◌<◌, ◌+◌, length, IfOk, IfErr, OnOk, OnErr};
ghost use Rattle.ti_agent.specs.Gathering.{has_ended, is_given_up, GoesOn, IsBarred, IsSameWork};
ghost use Rattle.ti_agent.specs.declared.gathering.Phase.TheVariants as phase;

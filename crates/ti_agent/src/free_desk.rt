//! A desk that no environment has.

use std::marker::Model;
use ti_handshake::Desk;
use ti_types::{EnvNo, Limits, ThreadNo, TiError};

/// A desk that no environment has, with how many calls are spent there (this profile). It goes to an environment of its
/// number by `Env::add_desk`, and comes back by `Env::take_desk`. So the next environment of this number has what is left.
///
/// What is always true of it: none of its environment's stops is in force, its thread has room for as many calls as are
/// left there, and at most `window` of its calls are out.
#[derive(Drop)]
pub struct FreeDesk {
    pub(crate) desk: Desk,
    pub(crate) spent: u64,
}

impl Model for FreeDesk {
    ghost use Rattle.ti_agent.specs.FreeDesk.{FreeState, IsFree};

    ghost Value = { FreeState };

    ghost view = { λ f. record { desk = f.desk; spent = f.spent } };

    ghost invariant = { λ f. IsFree (record { desk = f.desk; spent = f.spent }) };
}

impl FreeDesk {
    /// Takes a desk that has not been used. No call is spent there.
    ///
    /// The error is 103 ILLEGAL_ARGUMENT if it has been used: it has seen an entry of its thread's history. Then the desk
    /// comes back as it was.
    pub fn new(desk: Desk) -> Result<FreeDesk, (TiError, Desk)>
        ensures made { IfOk result (λ f. f ≡ record { desk = desk; spent = 0 }) }
        ensures unused { OnOk result (length desk.view.seen ≡ 0) }
        ensures used { OnErr result (0 < length desk.view.seen) }
        ensures refused { IfErr result (λ r. r.0 ≡ IllegalArgument) }
        ensures back { IfErr result (λ r. r.1 ≡ desk) }
    {
        if desk.seen_len() > 0 {
            return Err((TiError::IllegalArgument, desk));
        }
        desk.facts();
        Ok(FreeDesk { desk, spent: 0 })
    }

    /// What is always true of it, and of its desk (`Desk::facts`).
    pub fn facts(&self)
        ensures free { IsFree self.now }
        ensures rests { (self.now.desk.view.holds ≡ false) × (self.now.desk.view.found ≡ []) }
        ensures there_still { self.now.desk.view.gone ≡ false }
        ensures number { self.now.desk.view.number ≡ self.now.desk.env.0 + 1 }
        ensures there { self.now.desk.env.0 < self.now.desk.view.subject.limits.envs }
        ensures legal { is_legal self.now.desk.view.subject.limits self.now.desk.view.seen ≡ true }
        ensures mine { self.now.desk.view.mine ≡ made_by self.now.desk.view.number self.now.desk.view.seen }
        ensures few { length self.now.desk.view.posted ≤ length self.now.desk.view.mine }
        ensures cancelled { AreCancelled self.now.desk.cancelled self.now.desk.view.posted }
    {
        self.desk.facts();
    }

    /// Its environment leaves (`Desk::leave`).
    pub(crate) fn leave(&mut self)
        ensures { self.new ≡ left self.old }
    {
        self.desk.leave();
    }

    /// Wakes whoever sleeps at its thread and may go on. It is one load if nobody sleeps.
    pub(crate) fn wake_sleepers(&self) {
        self.desk.wake_sleepers();
    }

    /// The limits of the thread that it is at.
    pub fn limits(&self) -> Limits
        ensures { result ≡ self.now.desk.view.subject.limits }
    {
        self.desk.limits()
    }

    /// The number of the environments whose desk it may be.
    pub fn env(&self) -> EnvNo
        ensures { result ≡ self.now.desk.env }
    {
        self.desk.env()
    }

    /// The number of the thread that it is at.
    pub fn thread(&self) -> ThreadNo
        ensures { result ≡ self.now.desk.view.subject.thread }
    {
        self.desk.thread()
    }

    /// How many of its calls are out: they wait, or have an answer that is not collected.
    pub fn out(&self) -> u32
        ensures { result ≡ length self.now.desk.view.posted }
    {
        self.desk.out()
    }
}

ghost use Rattle.std.specs.Prelude.{◌≡◌, ◌+◌, ◌<◌, ◌≤◌, true, false, [], length, IfOk, IfErr, OnOk, OnErr};
ghost use Rattle.ti_types.specs.declared.error.TiError.TheVariants.{IllegalArgument};
ghost use Rattle.ti_replay.specs.Legal.{is_legal};
ghost use Rattle.ti_replay.specs.Makers.{made_by};
ghost use Rattle.ti_handshake.specs.Cancelled.{AreCancelled};
ghost use Rattle.ti_agent.specs.FreeDesk.{IsFree, left};

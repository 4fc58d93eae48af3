//! The steps that a thread made since it last handed over.

use std::alloc::Global;
use std::fmt;
use std::marker::Model;
use ti_trail::{Record, Recording};
use ti_types::{Step, TiError};

/// The steps that a thread has made since it last handed over, in order. There is room for as many as it may make at all.
/// They are counted, and take memory only if they are to be read again.
#[derive(Drop)]
pub struct Log {
    steps: Record<Step>,
}

impl Model for Log {
    ghost use Rattle.ti_frames.specs.Log.{Steps};

    ghost Value = { Steps };

    ghost view = { λ s. record { steps = s.steps.items; room = s.steps.room; kept = s.steps.kept } };
}

impl fmt::Debug for Log {
    fn fmt<W: fmt::Write>(&self, f: &mut fmt::Formatter<W>) -> fmt::Result {
        let len = self.len();
        write!(f, "{len} steps")
    }
}

impl Log {
    /// An empty log, with room for `own` steps.
    ///
    /// Fails with `OutOfMemory` (110) if the steps are to be kept and there is no memory for the room. It fails in no other
    /// case (this profile).
    pub fn new(alloc: Global, own: u64, recording: Recording) -> Result<Self, TiError>
        ensures steps { IfOk result (λ l. l.steps ≡ []) }
        ensures room { IfOk result (λ l. l.room ≡ own) }
        ensures kept { IfOk result (λ l. l.kept ≡ is_kept recording) }
        ensures only_kept { OnErr result (is_kept recording ≡ true) }
        ensures memory { IfErr result (λ e. e ≡ TiError.OutOfMemory) }
    {
        let steps = Record::new(alloc, own, recording)?;
        Ok(Log { steps })
    }

    /// How many steps there are, at most the room.
    #[inline(always)]
    pub fn len(&self) -> usize
        ensures len { result ≡ length self.now.steps }
        ensures fits { result ≤ self.now.room }
    {
        self.steps.len() as usize
    }

    /// Whether there is no room for another step.
    pub fn is_full(&self) -> bool
        ensures { result ≡ nat_le self.now.room (length self.now.steps) }
    {
        self.steps.is_full()
    }

    /// The steps in order, for a record to take in.
    pub fn steps(&self) -> &Record<Step>
        ensures items { result.now.items ≡ self.now.steps }
        ensures kept { result.now.kept ≡ self.now.kept }
    {
        &self.steps
    }

    /// Adds a step at the end. There has to be room for it: `is_full` is the test.
    #[inline(always)]
    pub fn push(&mut self, step: Step)
        requires { length self.old.steps < self.old.room }
        ensures { self.new ≡ with_steps self.old (self.old.steps ++ step ∷ []) }
    {
        self.steps.push(step);
    }

    /// Takes all steps away. The room stays.
    #[inline(always)]
    pub fn clear(&mut self)
        ensures { self.new ≡ with_steps self.old [] }
    {
        self.steps.clear();
    }
}

ghost use Rattle.std.specs.Prelude.{◌≡◌, ◌<◌, ◌≤◌, ◌++◌, [], ◌∷◌, length, IfOk, IfErr, OnErr, true, nat_le};
ghost use Rattle.ti_frames.specs.Log.{with_steps};
ghost use Rattle.ti_trail.specs.Record.{is_kept};

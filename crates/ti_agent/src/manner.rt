//! How a call waits for its answer.

use crate::env::Env;
use crate::home::Home;
use std::alloc::Global;
use std::rt::Clock;
use std::sync::Wait;
use std::time::Duration;
use ti_types::{Answer, Call, ThreadNo};

/// How a call waits for its answer: as long as it takes (`&rt`), or for a time (`Within`).
pub trait Manner {
    ghost use Rattle.ti_types.specs.declared.answer.Answer.{Answer as AnswerOf};
    ghost use Rattle.ti_types.specs.declared.call.Call.{Call as CallOf};
    ghost use Rattle.ti_types.specs.declared.numbers.ThreadNo.{ThreadNo as ThreadOf};
    ghost use Rattle.ti_agent.specs.Env.{Environment};

    /// What a call at a thread leaves, and what it answers.
    ghost called: { Environment → Environment → ThreadOf → CallOf → AnswerOf → Type 0 };

    /// Asks the thread a call that takes no buffer.
    fn ask<H: Home>(self, env: &mut Env<H>, thread: ThreadNo, call: Call) -> Answer
        requires bare { takes_buffer call ≡ false }
        ensures called { called env.old.env env.new.env thread call (said result) }
        ensures kind { IsKind call (said result) }
        ensures home { env.new.home ≡ env.old.home };

    /// Asks the thread any call. The memory for a trace's frames comes from `alloc`.
    fn call<H: Home>(self, env: &mut Env<H>, alloc: Global, thread: ThreadNo, call: Call) -> Answer
        ensures called { called env.old.env env.new.env thread call (said result) }
        ensures kind { IsKind call (said result) }
        ensures home { env.new.home ≡ env.old.home };
}

impl<R: Wait> Manner for &R {
    ghost use Rattle.ti_agent.specs.Asks.{IsCalled};

    ghost called = { IsCalled };

    fn ask<H: Home>(self, env: &mut Env<H>, thread: ThreadNo, call: Call) -> Answer {
        env.ask(self, thread, call)
    }

    fn call<H: Home>(
        self,
        env: &mut Env<H>,
        alloc: Global,
        thread: ThreadNo,
        call: Call,
    ) -> Answer {
        env.ask_any(self, alloc, thread, call)
    }
}

/// For at most this time. When the time is over, or if the clock cannot be read, the answer is 214 `TimedOut` (this
/// profile). Then the call has spent its one call, and is cancelled as by `Env::cancel`: a suspension or a pop still takes
/// place when the thread reaches it.
///
/// Before it asks, a call discards one answer at the thread, as `Env::discard` does. The answer is 216 (this profile:
/// `Full`) if `window` calls are out at the thread, and 110 OUT_OF_MEMORY if there is no memory to note that the call is given
/// up. Then nothing was asked.
#[derive(Drop)]
pub struct Within<'a, R> {
    /// The runtime, with its clock.
    pub rt: &'a R,
    /// Where the memory to note a call that is cancelled comes from.
    pub alloc: Global,
    /// How long to wait.
    pub time: Duration,
}

impl<'a, R: Wait + Clock> Manner for Within<'a, R> {
    ghost use Rattle.ti_agent.specs.Deadlines.{IsCalledWithin};

    ghost called = { IsCalledWithin };

    fn ask<H: Home>(self, env: &mut Env<H>, thread: ThreadNo, call: Call) -> Answer {
        env.ask_within(self.rt, self.alloc, thread, call, self.time)
    }

    fn call<H: Home>(
        self,
        env: &mut Env<H>,
        _alloc: Global,
        thread: ThreadNo,
        call: Call,
    ) -> Answer {
        env.ask_within(self.rt, self.alloc, thread, call, self.time)
    }
}

ghost use Rattle.std.specs.Prelude.{◌≡◌, false};
ghost use Rattle.ti_types.specs.Answer.{said};
ghost use Rattle.ti_replay.specs.Admission.{takes_buffer};
ghost use Rattle.ti_agent.specs.Asks.{IsKind};

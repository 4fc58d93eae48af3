//! What a connection does next: it reads a request, and hands it out or refuses it.

use crate::answers::{ContentType, Manner, answer};
use crate::connection::{Action, Connection, MAX_REQUESTS, Phase};
use crate::error::HttpError;
use crate::head::{Seen, Whole, look};
use crate::refusals::Refusal;

impl Connection {
    /// Says what the caller does next. Call it again until it gives `Wait` or `Close`, or there is output that the socket
    /// does not take.
    ///
    /// - 110 OUT_OF_MEMORY: there is no memory for the answer to a request that is refused. Nothing changes.
    pub fn next(&mut self, now: u64) -> Result<Action, HttpError>
        ensures action { IfOk result (λ action. Goes self.old now action self.new) }
        ensures memory { IfErr result (λ e. e ≡ OutOfMemory) }
        ensures free { IfErr result (λ _. Takes self.old) }
        ensures err { OnErr result (self.new ≡ self.old) }
    {
        if self.sent < self.output.len() {
            return Ok(Action::Write);
        }
        match self.phase {
            Phase::Reading => self.read(now),
            Phase::Waiting(_) => Ok(Action::Wait),
            Phase::Closing => {
                self.phase = Phase::Closed;
                Ok(Action::Close)
            }
            Phase::Closed => Ok(Action::Close),
        }
    }

    /// Goes on where a request is read and nothing is to be sent.
    fn read(&mut self, now: u64) -> Result<Action, HttpError>
        requires phase { self.old.phase ≡ Reading }
        requires output { self.old.output ≡ [] }
        ensures action { IfOk result (λ action. Reads self.old now action self.new) }
        ensures memory { IfErr result (λ e. e ≡ OutOfMemory) }
        ensures free { IfErr result (λ _. ReadTakes self.old) }
        ensures err { OnErr result (self.new ≡ self.old) }
    {
        match look(self.input.as_slice(), self.hosts) {
            Seen::More => self.starve(now),
            Seen::Broken(refusal) => self.refuse(refusal, now),
            Seen::Whole(whole) => match whole.outcome {
                Ok(request) => {
                    self.ask(whole);
                    Ok(Action::Ask(request))
                }
                Err(refusal) => self.refuse_whole(refusal, whole, now),
            },
        }
    }

    /// There is no whole head yet.
    fn starve(&mut self, now: u64) -> Result<Action, HttpError>
        requires phase { self.old.phase ≡ Reading }
        requires output { self.old.output ≡ [] }
        ensures action { IfOk result (λ action. (action, self.new) ≡ starves self.old now) }
        ensures memory { IfErr result (λ e. e ≡ OutOfMemory) }
        ensures free { IfErr result (λ _. is_cut self.old ≡ true) }
        ensures err { OnErr result (self.new ≡ self.old) }
    {
        if !self.ended {
            return Ok(Action::Wait);
        }
        if self.input.is_empty() {
            self.close();
            return Ok(Action::Close);
        }
        self.refuse(Refusal::NoRequest, now)
    }

    pub(crate) fn close(&mut self)
        requires { outstanding self.old.phase ≡ 0 }
        ensures { self.new ≡ closed self.old }
    {
        self.input.clear();
        self.output.clear();
        self.sent = 0;
        self.phase = Phase::Closed;
    }

    /// Hands a request out.
    fn ask(&mut self, whole: Whole)
        requires phase { self.old.phase ≡ Reading }
        requires output { self.old.output ≡ [] }
        requires within { whole.len ≤ length self.old.input }
        ensures { self.new ≡ asks self.old whole }
    {
        drop(self.input.drain(..whole.len));
        self.phase = Phase::Waiting(whole.manner);
        self.asked += 1;
    }

    /// Refuses what is no request.
    pub(crate) fn refuse(&mut self, refusal: Refusal, now: u64) -> Result<Action, HttpError>
        requires phase { self.old.phase ≡ Reading }
        ensures action { IfOk result (λ action. (action ≡ Write) × (self.new ≡ refuses self.old now refusal)) }
        ensures memory { IfErr result (λ e. e ≡ OutOfMemory) }
        ensures err { OnErr result (self.new ≡ self.old) }
    {
        let manner = Manner {
            keeps: false,
            head_only: false,
        };
        self.put_refusal(refusal, manner, now)?;
        Ok(Action::Write)
    }

    /// Refuses a whole request.
    fn refuse_whole(
        &mut self,
        refusal: Refusal,
        whole: Whole,
        now: u64,
    ) -> Result<Action, HttpError>
        requires phase { self.old.phase ≡ Reading }
        requires within { whole.len ≤ length self.old.input }
        ensures action { IfOk result (λ action. (action ≡ Write) × (self.new ≡ refuses_whole self.old now refusal whole)) }
        ensures memory { IfErr result (λ e. e ≡ OutOfMemory) }
        ensures err { OnErr result (self.new ≡ self.old) }
    {
        let manner = Manner {
            keeps: whole.manner.keeps && !refusal.closes() && self.asked + 1 < MAX_REQUESTS,
            head_only: whole.manner.head_only,
        };
        self.put_refusal(refusal, manner, now)?;
        if manner.keeps {
            drop(self.input.drain(..whole.len));
        }
        Ok(Action::Write)
    }

    /// Answers what is refused. The input stays only if the connection goes on.
    fn put_refusal(&mut self, refusal: Refusal, manner: Manner, now: u64) -> Result<(), HttpError>
        requires phase { self.old.phase ≡ Reading }
        requires keeps { manner.keeps ≡ true → self.old.asked + 1 < 1000 }
        ensures ok { OnOk result (self.new ≡ refused_with self.old now manner self.old.input refusal) }
        ensures memory { IfErr result (λ e. e ≡ OutOfMemory) }
        ensures err { OnErr result (self.new ≡ self.old) }
    {
        self.output = answer(
            self.alloc,
            refusal.status(),
            ContentType::Text,
            refusal.text(),
            manner,
        )?;
        self.sent = 0;
        if !manner.keeps {
            self.input.clear();
            self.phase = Phase::Closing;
        }
        self.since = now;
        self.asked += 1;
        self.answered += 1;
        Ok(())
    }
}

ghost use Rattle.std.specs.Prelude.{◌≡◌, ◌≤◌, ◌<◌, ◌+◌, true, [], length, drop, IfOk, IfErr, OnOk, OnErr};
ghost use Rattle.ti_http.specs.Memory.{Takes, ReadTakes, is_cut};
ghost use Rattle.ti_http.specs.Talks.{outstanding, Goes, Reads, closed, starves, asks, refused_with, refuses, refuses_whole};
ghost use Rattle.ti_http.specs.declared.connection.Action.TheVariants.{Write};
ghost use Rattle.ti_http.specs.declared.connection.Phase.TheVariants.{Reading};
ghost use Rattle.ti_http.specs.declared.error.HttpError.TheVariants.{OutOfMemory};

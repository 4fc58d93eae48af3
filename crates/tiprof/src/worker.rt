//! A worker's side of its own thread: which method it is in, and where it may be stopped.

use crate::method::Method;
use std::marker::Model;
use std::rt::Clock;
use std::sync::Wait;
use std::thread;
use std::time::Duration;
use ti_handshake::{AtSafe, Ended, Fresh, Polled, Running};
use ti_service::{Service, ThreadInfo};
use ti_types::{Kind, Step};

/// The thread can go no further. It has no entries left (208), is too deep (201), or has no memory.
#[derive(Clone, Copy)]
pub struct Spent;

/// Attaches a thread of this name. `None` if memory runs out.
pub fn attach<R: Wait + AllocGlobal>(rt: &R, service: &mut Service, name: String) -> Option<Fresh> {
    let info = ThreadInfo { name, priority: 5 };
    service.attach_thread(rt, rt.alloc(), info).ok()
}

/// A thread that computes. Contracts see the cell at which it runs, if it runs.
#[derive(Drop)]
pub struct Worker {
    /// `None` while the thread is in native code or blocked.
    running: Option<Running>,
}

impl Model for Worker {
    ghost use Rattle.std.specs.Prelude.{Option};
    ghost use Rattle.atomic_table.specs.Seated.{TableId};
    ghost use Rattle.tiprof.specs.Workers.{cell_of};

    ghost Value = { Option TableId };

    ghost view = { λ w. cell_of w.running };
}

impl Worker {
    /// Starts the thread. It waits while a stop is in force. `None` if it is not of this service.
    pub fn start<R: Wait>(rt: &R, service: &mut Service, fresh: Fresh) -> Option<Worker>
        ensures cell { IfSome result (λ w. w ≡ Some fresh.cell) }
    {
        let running = service.start_thread(rt, fresh).ok()?;
        Some(Worker {
            running: Some(running),
        })
    }

    /// Makes a step. It never waits. `Spent` if the step is refused.
    fn step(&mut self, step: Step) -> Result<(), Spent>
        ensures same { self.new ≡ self.old }
    {
        let Some(running) = &mut self.running else {
            return Err(Spent);
        };
        match running.step(step) {
            Ok(()) => Ok(()),
            Err(_) => Err(Spent),
        }
    }

    /// Enters a method. `Spent` if the step is refused.
    pub fn enter(&mut self, method: Method) -> Result<(), Spent>
        ensures same { self.new ≡ self.old }
    {
        self.step(Step::Enter(method.number()))
    }

    /// Leaves the newest method. `Spent` if the step is refused.
    pub fn leave(&mut self) -> Result<(), Spent>
        ensures same { self.new ≡ self.old }
    {
        self.step(Step::Leave)
    }

    /// A place where the thread may be stopped. It takes one load if nobody calls for the thread. Otherwise the thread hands
    /// its frames over, and waits while it is held.
    pub fn poll<R: Wait>(&mut self, rt: &R)
        ensures same { self.new ≡ self.old }
    {
        if let Some(running) = &mut self.running {
            if running.poll_clear() {
                return;
            }
        }
        self.hand_over(rt);
    }

    /// Hands the frames over, and returns when it may.
    fn hand_over<R: Wait>(&mut self, rt: &R)
        ensures same { self.new ≡ self.old }
    {
        let Some(running) = self.running.take() else {
            return;
        };
        self.running = match running.poll(rt) {
            Polled::Go(running) => Some(running),
            Polled::Held(held) => Some(held.back(rt)),
        };
    }

    /// Enters a native method, and goes into native code. From then on the thread may be stopped and read, until it returns.
    /// `Spent` if the step or the hand-over is refused.
    pub fn native<R: Wait>(&mut self, rt: &R, method: Method) -> Result<AtSafe, Spent>
        ensures cell { IfOk result (λ away. self.old ≡ Some away.cell) }
        ensures same { OnErr result (self.new ≡ self.old) }
    {
        self.step(Step::EnterNative(method.number()))?;
        let Some(running) = self.running.take() else {
            return Err(Spent);
        };
        match running.native(rt) {
            Ok(away) => Ok(away),
            Err((_error, running)) => {
                self.running = Some(running);
                Err(Spent)
            }
        }
    }

    /// Returns from native code or from a block, when it may.
    pub fn back<R: Wait>(&mut self, rt: &R, away: AtSafe)
        ensures cell { self.new ≡ Some away.cell }
    {
        self.running = Some(away.back(rt));
    }

    /// Sleeps for this time, blocked as in Java's Thread.sleep. `Spent` if the hand-over is refused.
    pub fn sleep<R: Wait + Clock>(&mut self, rt: &R, time: Duration) -> Result<(), Spent>
        ensures same { self.new ≡ self.old }
    {
        let Some(running) = self.running.take() else {
            return Err(Spent);
        };
        match running.block(rt, Kind::Sleep) {
            Ok(away) => {
                thread::sleep(rt, time);
                self.running = Some(away.back(rt));
                Ok(())
            }
            Err((_error, running)) => {
                self.running = Some(running);
                Err(Spent)
            }
        }
    }

    /// Ends the thread. It has seen its whole history, which is legal. `None` if it does not run, or is not of this service.
    pub fn end<R: Wait>(self, rt: &R, service: &mut Service) -> Option<Ended>
        ensures cell { IfSome result (λ e. self ≡ Some e.cell) }
        ensures legal { IfSome result (λ e. is_legal e.view.subject.limits e.view.seen ≡ true) }
    {
        service.end_thread(rt, self.running?).ok()
    }
}

ghost use Rattle.std.specs.Prelude.{◌≡◌, true, Some, IfOk, IfSome, OnErr};
ghost use Rattle.ti_replay.specs.Legal.{is_legal};

//! What is shared by the workers, the sampling, and the thread that listens for the end of standard input.

use std::io::{self, Input};
use std::sync::atomic::{AtomicBool, AtomicU32, Ordering};
use std::sync::{Mutex, Wait};
use std::thread::Parker;
use std::time::Duration;
use ti_vmop::VmTurn;

/// The lock for stops, and who has ended.
#[derive(Drop)]
pub struct Shared {
    turn: Mutex<VmTurn>,
    /// Whether the sampling is over, so that the workers have to stop.
    over: AtomicBool,
    /// Whether standard input is closed.
    closed: AtomicBool,
    /// How many workers are done.
    done: AtomicU32,
    /// Wakes the sampling when one of these has changed.
    bell: Parker,
}

impl Shared {
    /// Nothing has ended yet.
    pub fn new() -> Self {
        Shared {
            turn: Mutex::new(VmTurn::new()),
            over: AtomicBool::new(false),
            closed: AtomicBool::new(false),
            done: AtomicU32::new(0),
            bell: Parker::new(),
        }
    }

    /// The lock for stops.
    pub fn turn(&self) -> &Mutex<VmTurn> {
        &self.turn
    }

    /// Whether the sampling is over.
    pub fn is_over(&self) -> bool {
        self.over.load(Ordering::SeqCst)
    }

    /// Tells the workers to stop.
    pub fn stop(&self) {
        self.over.store(true, Ordering::SeqCst);
    }

    /// Notes that one more worker is done.
    pub fn note_done(&self) {
        self.done.fetch_add(1, Ordering::SeqCst);
        self.bell.unpark();
    }

    /// Reads standard input to its end, and notes that it is closed.
    pub fn listen<R: Input>(&self, rt: &R) {
        let _read = io::copy(&mut rt.reader(), &mut io::sink());
        self.closed.store(true, Ordering::SeqCst);
        self.bell.unpark();
    }

    /// Whether standard input is closed, or all of this many workers are done.
    pub fn is_ended(&self, workers: u32) -> bool {
        self.closed.load(Ordering::SeqCst) || self.done.load(Ordering::SeqCst) >= workers
    }

    /// Waits for at most this time, and less if something has ended.
    pub fn rest<R: Wait>(&self, rt: &R, time: Duration) {
        self.bell.park_timeout(rt, time);
    }
}

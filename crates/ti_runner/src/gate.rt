//! What a run asks before each operation and call.
use ti_types::{EnvNo, ThreadNo};

/// What a live run asks before each operation and call, and calls after them (this profile). The threads and agents of a run
/// call it from threads of their own. So it may make one of them wait until another is at some place.
pub trait Gate: Sync {
    /// Called before an operation of a thread's walk, with its number, counted from 0. If it gives `false`, the walk ends
    /// here.
    fn before_op(&self, thread: ThreadNo, operation: u32) -> bool;

    /// Called before a call of an agent's list, with its number, counted from 0. If it gives `false`, the list ends here.
    fn before_call(&self, env: EnvNo, call: u32) -> bool;

    /// Called after the reply to an agent's call.
    fn answered(&self, env: EnvNo, call: u32);

    /// Called when a thread's walk is done, or was ended by `before_op`. If the thread ran, it has ended.
    fn walked(&self, thread: ThreadNo);
}

/// A gate that lets everything pass.
pub struct Open;

impl Gate for Open {
    fn before_op(&self, _thread: ThreadNo, _operation: u32) -> bool {
        true
    }

    fn before_call(&self, _env: EnvNo, _call: u32) -> bool {
        true
    }

    fn answered(&self, _env: EnvNo, _call: u32) {}

    fn walked(&self, _thread: ThreadNo) {}
}

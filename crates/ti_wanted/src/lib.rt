//! Which threads are wanted, for a runtime whose threads do not poll by themselves.
//!
//! A running thread that somebody calls for has to hand over. An engine with an interrupt request, a compiled loop or a lock
//! of its interpreter's has to be told. A `Watch` tells it: it has a list, into which the cell of each watched thread enters the
//! thread when somebody calls for it and nobody did before (`ti_cell`), and `next` takes the threads out. No call waits.
//! It promises:
//!
//! - `next` tells only of threads that are watched, and changes no other thing that contracts see.
//!
//! It does not promise that a thread is told of. What keeps that true is the order of the steps (`ti_cell::WantedList`), which
//! is tested and searched by a model.
#![tactic(auto)]

mod watch;

pub use watch::Watch;

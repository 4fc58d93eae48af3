//! The frames of a running thread, and the log of its steps.
//!
//! A thread that runs owns both. It makes its steps on its `Frames`, without asking anybody, and keeps each accepted one in
//! its `Log`. When it hands over or ends, the layer above takes the frames back and puts the logged steps into the thread's
//! history.
//!
//! This crate uses `ti_types`, with the steps, the frames, and the table of what a step makes of frames and why it is
//! refused. It uses `ti_trail` for the log. It promises:
//!
//! - `Frames` is the list of the frames, newest first, at most as many as its depth. A step is made exactly if the table has
//!   no refusal, and does what the table says. A refused step changes nothing.
//! - `Log` is the list of the steps that were pushed, in order, at most as many as its room.
//! - Only `Frames::new` and `Log::new` take memory, and their only error is lack of it.
#![tactic(auto)]

mod changes;
mod frames;
mod log;

pub use changes::{kept_frames_stay, steps_lead_between};
pub use frames::Frames;
pub use log::Log;

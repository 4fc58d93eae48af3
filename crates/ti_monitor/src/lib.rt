//! The monitor of a service: it reads all threads' stacks for profilers, and counts what monitors ask for.
//!
//! A `Monitor` is an agent of the service. It reads all threads once, or over and over for some seconds, for as many readings
//! at once as there are, and posts one call at a thread for all of them. A `Door` answers requests of HTTP with what it read:
//! profiles for `go tool pprof`, texts, JSON, and counters for Prometheus. It has no socket and no clock: bytes and the time go
//! in, bytes and what is to be done come out.
//!
//! This crate uses `ti_service` for the threads, `ti_pprof` for counts and profiles, and `ti_http` for each connection. No call
//! waits.
#![tactic(auto)]

mod account;
mod asking;
mod counting;
mod door;
mod door_answers;
mod door_desk;
mod door_error;
mod door_seat;
mod door_seats;
mod door_tally;
mod frames_text;
mod groups_text;
mod hand_overs;
mod index;
mod json;
mod json_frames;
mod label;
mod law;
mod lines;
mod meeting;
mod methods;
mod metrics;
mod monitor;
mod naming;
mod prometheus;
mod prometheus_lines;
mod reading;
mod running;
mod sampling;
mod schedule;
mod stack;
mod stacks;
mod state;
mod texts;
mod threads_text;
mod ticking;
mod watched;

pub use door::Door;
pub use door_error::DoorError;
pub use door_seat::Todo;
pub use door_seats::{ConnNo, MOST_CONNECTIONS};
pub use law::samples_are_ticks_at_threads;
pub use metrics::{BOUNDS, Histogram, Metrics};
pub use monitor::{Monitor, ReadingNo};
pub use reading::{Details, Order, Reading, Seen};
pub use state::{STATES, state_place};

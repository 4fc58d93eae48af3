//! The program `tiwalk` as a library: what it reads, runs and writes, over any reader and any writer.
//!
//! This crate depends on three others. `ti_script` reads documents and makes texts, and `ti_core` runs events. `ti_runner`
//! runs live scripts in threads of the operating system. The crates above may rely on this:
//!
//! - `walk` writes exactly the text of what the definitions of `ti_replay` say of the walk that was read.
//! - `live` writes the text of a report that fits the script that was read, whatever the schedule. `run_live` gives such a
//!   report, under a gate.
//! - `check` writes the verdict on the history that was read.
//! - A writer that fails has a prefix of that text. Every other fault comes before the first byte.
//! - Only `live` and `run_live` may wait, and `carry_out`, which calls `live`.
#![tactic(auto)]

mod arguments;
mod check_command;
mod commands;
mod fault;
mod fault_line;
mod input;
mod lines;
mod live_command;
mod live_lines;
mod live_run;
mod output;
mod walk_command;

pub use arguments::{Command, asked_command, command_of};
pub use check_command::check;
pub use commands::carry_out;
pub use fault::{Fault, status};
pub use fault_line::put_fault;
pub use input::read_input;
pub use live_command::live;
pub use live_run::run_live;
pub use output::write_whole;
pub use ti_live::LiveReport;
pub use ti_runner::Gate;
pub use walk_command::walk;

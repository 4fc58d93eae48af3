//! `tiprof`: a sampling profiler of threads that compute, over `ti_service`.
//!
//! Each worker has a thread of its own. In turn it parses a document, sorts numbers, searches and sleeps, with a frame for
//! each method. With `--churn`, new threads come and go besides. An agent on one more thread takes the stacks of all of them
//! at an interval.
//!
//! It ends after the given seconds or samples, or when all workers have made their rounds. If none of these is given, it
//! ends when standard input is closed. Then it writes folded stacks to standard output, or with `--svg` a flame graph. On
//! standard error it writes a line about the run. With `--pprof` it also writes a profile to a file, for `go tool pprof`.
//!
//! The limits are lasting ones: it may run as long as its process. The status is 0, or 1 if memory runs out or a line cannot
//! be written. It is 2 for arguments that it does not know, with a line of usage on standard error.
#![tactic(auto)]

mod arguments;
mod churn;
mod flame;
mod fold;
mod folded;
mod method;
mod one_sample;
mod options;
mod parse;
mod pprof;
mod roles;
mod roots;
mod samples;
mod search;
mod session;
mod shared;
mod sort;
mod taken;
mod tally;
mod work;
mod worker;

use crate::arguments::arguments_of;
use crate::flame::flame_of;
use crate::folded::lines_of;
use crate::options::{Options, Way, options_of};
use crate::parse::document;
use crate::pprof::{began, profile_of};
use crate::session::{Ran, run};
use std::alloc::{AllocError, Global};
use std::io::Input;
use std::process::ExitCode;
use std::rt::{Clock, Env, Files};
use std::sync::Wait;
use std::thread::Threads;
use std::time::CpuClock;
use std::{env, fs};

/// How many numbers the longest array of the workers' document has.
const NUMBERS: u32 = 80_000;

/// What the process was started with.
#[derive(Drop)]
struct Command {
    options: Options,
    /// The file that a profile is written to.
    file: Option<String>,
}

/// What the process was started with.
fn read_command<R: Env + AllocGlobal>(rt: &R) -> Option<Command> {
    let mut words = env::args(rt).ok()?;
    let _program = words.next();
    let words: Vec<String> = words.collect(rt.alloc()).ok()?;
    let arguments = arguments_of(words).ok()??;
    Some(Command {
        options: options_of(&arguments.words)?,
        file: arguments.file,
    })
}

/// Runs the workers, and samples them.
fn sampled<R: Threads + Wait + Sync + Clock + CpuClock + Input + Eprint + AllocGlobal>(
    rt: &R,
    options: Options,
) -> Option<Ran> {
    let text = document(rt.alloc(), NUMBERS).ok()?;
    run(rt, options, text.as_bytes())
}

/// The title of a flame graph.
fn title_of(alloc: Global, options: Options, ran: &Ran) -> Result<String, AllocError> {
    let way = match options.way {
        Way::Handshake => "by handshakes",
        Way::Standing => "of threads that stand",
    };
    format!(in alloc;
        "tiprof: {} samples of {} threads, {} us apart, {}: {} stacks",
        ran.sampled.samples,
        options.threads,
        options.interval,
        way,
        ran.sampled.taken.roots().total()
    )
}

/// Writes the stacks, as folded stacks or as a flame graph.
fn write_stacks<R: Print + AllocGlobal>(rt: &R, options: Options, ran: &Ran) -> Option<()> {
    let roots = ran.sampled.taken.roots();
    if options.svg {
        let title = title_of(rt.alloc(), options, ran).ok()?;
        let picture = flame_of(rt.alloc(), roots, title.as_str()).ok()?;
        return println!(rt; "{picture}").ok();
    }
    for line in lines_of(rt.alloc(), roots).ok()? {
        println!(rt; "{line}").ok()?;
    }
    Some(())
}

/// Writes a profile, if a file is given for it.
fn write_profile<R: Clock + Files + AllocGlobal>(
    rt: &R,
    command: &Command,
    ran: &Ran,
) -> Option<()> {
    let Some(file) = &command.file else {
        return Some(());
    };
    let time = began(rt, &ran.sampled);
    let bytes = profile_of(rt.alloc(), command.options, &ran.sampled, time).ok()?;
    fs::write(rt, file.as_str(), bytes.as_slice()).ok()
}

/// What is said of the new threads, if any were asked for.
fn churn_of(alloc: Global, options: Options, ran: &Ran) -> Result<String, AllocError> {
    match options.churn {
        Some(_) => format!(in alloc; "; {} new threads came and went", ran.tally.churned),
        None => Ok(String::new(alloc)),
    }
}

/// Writes the stacks, and a line about the run.
fn report<R: Print + Eprint + AllocGlobal>(rt: &R, options: Options, ran: &Ran) -> Option<()> {
    write_stacks(rt, options, ran)?;
    eprintln!(rt;
        "tiprof: {} samples of {} threads in {} ms; {} live threads seen, {} stacks folded; {} jobs, {} us of processor{}",
        ran.sampled.samples,
        options.threads,
        ran.sampled.millis,
        ran.sampled.taken.live(),
        ran.sampled.taken.roots().total(),
        ran.tally.jobs,
        ran.tally.cpu / 1000,
        churn_of(rt.alloc(), options, ran).ok()?
    )
    .ok()
}

const USAGE: &str =
    "usage: tiprof [--seconds 1..86400] [--samples N] [--jobs N] [--interval MICROSECONDS] [--threads 1..64] [--churn 1..10000] [--handshake | --standing] [--by-thread] [--svg] [--pprof FILE]";

fn main(rt: HostRuntime) -> ExitCode {
    let Some(command) = read_command(&rt) else {
        let _ = eprintln!(rt; "{USAGE}");
        return ExitCode::from(2);
    };
    let Some(ran) = sampled(&rt, command.options) else {
        return ExitCode::from(1);
    };
    let written = write_profile(&rt, &command, &ran);
    match report(&rt, command.options, &ran) {
        Some(()) if written.is_some() => ExitCode::from(0),
        _ => ExitCode::from(1),
    }
}

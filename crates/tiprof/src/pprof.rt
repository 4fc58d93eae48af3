//! The profile that `go tool pprof` reads.
//!
//! It has a sample for each stack, by its owner and by what the thread did. The methods are its functions. Files and lines are
//! not known.

use crate::fold::Folded;
use crate::method::{METHODS, name_of};
use crate::options::Options;
use crate::roots::{Doing, Owner, Part, Roots};
use crate::samples::Sampled;
use std::alloc::{AllocError, Global};
use std::rt::Clock;
use std::time::SystemTime;
use ti_pprof::{About, Counts, Frame, Function, Names, TOTAL_LIMIT, Unit, encode};
use ti_types::MethodNo;

/// How many frames that differ in themselves or in what is below them there is room for.
const NODES: u32 = 65_536;

/// How many different samples there is room for.
const SAMPLES: u32 = 65_536;

/// The states of the samples, by what the threads did.
const DOINGS: [Doing; 2] = [Doing::Running, Doing::Away];

/// The place of a state in the list of states.
fn state_of(doing: Doing) -> u32 {
    match doing {
        Doing::Running => 0,
        Doing::Away => 1,
    }
}

/// The name of an owner's threads. The error is lack of memory.
fn thread_of(alloc: Global, owner: Owner) -> Result<String, AllocError> {
    match owner.name(alloc)? {
        Some(name) => Ok(name),
        None => String::from_str(alloc, "workers"),
    }
}

/// All methods, in the order of their numbers. The error is lack of memory.
fn functions_of(alloc: Global) -> Result<Vec<Function>, AllocError> {
    let mut functions = Vec::new(alloc);
    for number in 0..METHODS {
        functions.push(Function {
            name: String::from_str(alloc, name_of(MethodNo(number)))?,
            file: String::new(alloc),
            start_line: 0,
        })?;
    }
    Ok(functions)
}

/// The names of the owners of all parts. The error is lack of memory.
fn threads_of(alloc: Global, roots: &Roots) -> Result<Vec<String>, AllocError> {
    let mut threads = Vec::new(alloc);
    for place in 0..roots.parts().len() {
        threads.push(thread_of(alloc, roots.owner(place))?)?;
    }
    Ok(threads)
}

/// The names of the states. The error is lack of memory.
fn states_of(alloc: Global) -> Result<Vec<String>, AllocError> {
    let mut states = Vec::new(alloc);
    for doing in DOINGS {
        states.push(String::from_str(alloc, doing.word())?)?;
    }
    Ok(states)
}

/// The names of what samples have numbers for. The error is lack of memory.
fn names_of(alloc: Global, roots: &Roots) -> Result<Names, AllocError> {
    Ok(Names {
        functions: functions_of(alloc)?,
        threads: threads_of(alloc, roots)?,
        states: states_of(alloc)?,
    })
}

/// The frames of a stack, the newest first. The error is lack of memory.
fn frames_of(alloc: Global, folded: &Folded) -> Result<Vec<Frame>, AllocError> {
    let mut frames = Vec::with_capacity(alloc, folded.methods().len())?;
    for method in folded.methods() {
        frames.push(Frame {
            function: method.0,
            line: 0,
        })?;
    }
    Ok(frames)
}

/// Counts a stack as often as it was seen. The error is lack of memory, or that there are 2^63 stacks or more.
fn put(
    alloc: Global,
    counts: &mut Counts,
    folded: &Folded,
    thread: u32,
    doing: Doing,
) -> Result<(), AllocError> {
    let frames = frames_of(alloc, folded)?;
    if folded.count() >= TOTAL_LIMIT - counts.total() {
        return Err(AllocError);
    }
    counts.put(&frames, thread, state_of(doing), folded.count());
    Ok(())
}

/// Counts all stacks of a part. The errors are those of `put`.
fn put_part(
    alloc: Global,
    counts: &mut Counts,
    part: &Part,
    thread: u32,
) -> Result<(), AllocError> {
    for doing in DOINGS {
        for folded in part.fold(doing).stacks() {
            put(alloc, counts, folded, thread, doing)?;
        }
    }
    Ok(())
}

/// All stacks, counted. The errors are those of `put`.
fn counts_of(alloc: Global, roots: &Roots) -> Result<Counts, AllocError> {
    let mut counts = Counts::new(alloc, NODES, SAMPLES)?;
    let mut thread: u32 = 0;
    for part in roots.parts() {
        put_part(alloc, &mut counts, part, thread)?;
        thread = thread.wrapping_add(1);
    }
    Ok(counts)
}

/// When a run began that has just ended, in nanoseconds since 1970. 0 if the clock can't be read.
pub fn began<R: Clock>(rt: &R, sampled: &Sampled) -> u64 {
    let Ok(now) = SystemTime::now(rt) else {
        return 0;
    };
    let Ok(passed) = now.duration_since(SystemTime::UNIX_EPOCH) else {
        return 0;
    };
    let nanos = u64::try_from(passed.as_nanos()).unwrap_or(0);
    nanos.saturating_sub(nanos_of(sampled))
}

/// How long the sampling took, in nanoseconds.
fn nanos_of(sampled: &Sampled) -> u64 {
    sampled.millis.saturating_mul(1_000_000)
}

/// When and how the stacks were taken. The error is lack of memory.
fn about_of(
    alloc: Global,
    options: Options,
    sampled: &Sampled,
    time: u64,
) -> Result<About, AllocError> {
    let mut comments = Vec::new(alloc);
    comments.push(format!(in alloc;
        "ticks={} threads={} thread_ticks={}",
        sampled.samples,
        options.threads,
        sampled.taken.live()
    )?)?;
    Ok(About {
        program: String::from_str(alloc, "tiprof")?,
        unit: Unit::Wall {
            period: u64::from(options.interval) * 1000,
        },
        time,
        duration: nanos_of(sampled),
        comments,
    })
}

/// The bytes of the profile of a run that began at this time. The errors are those of `put`.
pub fn profile_of(
    alloc: Global,
    options: Options,
    sampled: &Sampled,
    time: u64,
) -> Result<Vec<u8>, AllocError> {
    let roots = sampled.taken.roots();
    let about = about_of(alloc, options, sampled, time)?;
    let names = names_of(alloc, roots)?;
    let counts = counts_of(alloc, roots)?;
    encode(alloc, &about, &names, &counts)
}

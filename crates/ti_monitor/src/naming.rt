//! The names of what was counted.

use crate::methods::Methods;
use crate::reading::{Details, Seen};
use crate::running::Running;
use crate::state::STATE_NAMES;
use crate::texts::visible;
use crate::watched::Watched;
use std::alloc::{AllocError, Global};
use ti_pprof::{About, Function, Names};
use ti_service::{Agent, ClassCalls, ClassError, MethodName};
use ti_types::MethodNo;

/// The names of the functions that are no method's, in the order of their places.
const BARE_NAMES: [&str; 2] = ["(did not answer)", "(late)"];

/// A function of which only the name is known. The error is lack of memory.
fn named(alloc: Global, name: String) -> Function {
    Function {
        name,
        file: String::new(alloc),
        start_line: 0,
    }
}

/// The name of a method's file, or an empty one if it is not known. The error is lack of memory.
fn file_of(alloc: Global, agent: &mut Agent, method: MethodNo) -> Result<String, AllocError> {
    let Ok(class) = agent.get_method_declaring_class(method) else {
        return Ok(String::new(alloc));
    };
    match agent.get_source_file_name(alloc, class) {
        Ok(file) => Ok(file),
        Err(ClassError::OutOfMemory) => Err(AllocError),
        Err(_) => Ok(String::new(alloc)),
    }
}

/// A method's function. One that nobody defined is named by its number. The error is lack of memory.
fn function_of(alloc: Global, agent: &mut Agent, method: MethodNo) -> Result<Function, AllocError> {
    match agent.get_method_name(alloc, method) {
        Ok(
            MethodName {
                name,
                first_line,
                ..
            },
        ) => Ok(Function {
            name,
            file: file_of(alloc, agent, method)?,
            start_line: first_line,
        }),
        Err(ClassError::OutOfMemory) => Err(AllocError),
        Err(_) => Ok(named(alloc, format!(in alloc; "method {}", method.0)?)),
    }
}

/// The functions of frames: those that are no method's, and then the methods. The error is lack of memory.
fn functions_of(
    alloc: Global,
    agent: &mut Agent,
    methods: &Methods,
) -> Result<Vec<Function>, AllocError> {
    let mut functions = Vec::new(alloc);
    for name in BARE_NAMES {
        functions.push(named(alloc, String::from_str(alloc, name)?))?;
    }
    for number in methods.numbers() {
        functions.push(function_of(alloc, agent, MethodNo(*number))?)?;
    }
    Ok(functions)
}

/// The name of a thread, or `thread N` if it has none. The error is lack of memory.
fn name_of(alloc: Global, watched: &Watched) -> Result<String, AllocError> {
    if watched.name.is_empty() {
        return format!(in alloc; "thread {}", watched.thread.0);
    }
    String::from_str(alloc, watched.name.as_str())
}

/// The names of the threads, as they are. The error is lack of memory.
fn threads_of(alloc: Global, watched: &[Watched]) -> Result<Vec<String>, AllocError> {
    let mut threads = Vec::new(alloc);
    for one in watched {
        threads.push(name_of(alloc, one)?)?;
    }
    Ok(threads)
}

/// The texts of the threads' labels: their names, with control characters escaped. The error is lack of memory.
fn labels_of(alloc: Global, watched: &[Watched]) -> Result<Vec<String>, AllocError> {
    let mut labels = Vec::new(alloc);
    for one in watched {
        labels.push(visible(alloc, name_of(alloc, one)?.as_str())?)?;
    }
    Ok(labels)
}

/// Whether the functions are native methods. Those that are no method's are not. The error is lack of memory.
fn natives_of(
    alloc: Global,
    agent: &mut Agent,
    methods: &Methods,
) -> Result<Vec<bool>, AllocError> {
    let mut natives = Vec::new(alloc);
    for _ in BARE_NAMES {
        natives.push(false)?;
    }
    for number in methods.numbers() {
        let told = agent.is_method_native(MethodNo(*number));
        natives.push(matches!(told, Ok(true)))?;
    }
    Ok(natives)
}

/// The names of the states. The error is lack of memory.
fn states_of(alloc: Global) -> Result<Vec<String>, AllocError> {
    let mut states = Vec::new(alloc);
    for name in STATE_NAMES {
        states.push(String::from_str(alloc, name)?)?;
    }
    Ok(states)
}

/// The names of all that was counted. The error is lack of memory.
pub(crate) fn names_of(
    alloc: Global,
    agent: &mut Agent,
    methods: &Methods,
    watched: &[Watched],
) -> Result<Names, AllocError> {
    Ok(Names {
        functions: functions_of(alloc, agent, methods)?,
        threads: labels_of(alloc, watched)?,
        states: states_of(alloc)?,
    })
}

/// What texts tell beyond these names. The error is lack of memory.
pub(crate) fn details_of(
    alloc: Global,
    agent: &mut Agent,
    methods: &Methods,
    watched: &[Watched],
) -> Result<Details, AllocError> {
    Ok(Details {
        threads: threads_of(alloc, watched)?,
        natives: natives_of(alloc, agent, methods)?,
    })
}

/// The threads, by their places. The error is lack of memory.
pub(crate) fn seen_of(alloc: Global, watched: &[Watched]) -> Result<Vec<Seen>, AllocError> {
    let mut seen = Vec::new(alloc);
    for one in watched {
        seen.push(Seen {
            thread: one.thread,
            priority: one.priority,
            state: one.named_state(),
        })?;
    }
    Ok(seen)
}

/// How many ticks, samples and stacks there were, for the reader. The error is lack of memory.
fn comment_of(alloc: Global, reading: &Running) -> Result<String, AllocError> {
    let account = reading.account();
    format!(in alloc;
        "cebdyraq ticks={} missed={} thread_ticks={} late={} unanswered={}",
        reading.ticks(),
        reading.missed(),
        account.thread_ticks(),
        account.late(),
        account.unanswered()
    )
}

/// When and how a reading was made, and of which program. The error is lack of memory.
pub(crate) fn about_of(alloc: Global, program: &str, reading: &Running) -> Result<About, AllocError>
    ensures { IfOk result (λ a. string_bytes a.program ≡ program.now) }
{
    let mut comments = Vec::new(alloc);
    comments.push(comment_of(alloc, reading)?)?;
    Ok(About {
        program: String::from_str(alloc, program)?,
        unit: reading.unit(),
        time: reading.unix,
        duration: reading.duration(),
        comments,
    })
}

ghost use Rattle.std.specs.Prelude.{◌≡◌, IfOk};
ghost use Rattle.std.specs.String.{string_bytes};

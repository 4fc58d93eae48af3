//! The arguments, and the file among them that a profile is written to.

use std::alloc::AllocError;

/// The words of the process's arguments.
#[derive(Drop)]
pub struct Arguments {
    /// The words of the options, in their order.
    pub words: Vec<String>,
    /// The word behind the last `--pprof`.
    pub file: Option<String>,
}

/// Takes each `--pprof` out of these words, with the word behind it. `Ok(None)` if there is none behind it. The error is lack
/// of memory.
pub fn arguments_of(words: Vec<String>) -> Result<Option<Arguments>, AllocError> {
    let mut arguments = Arguments {
        words: Vec::new(*words.allocator()),
        file: None,
    };
    let mut awaits_file = false;
    for word in words {
        if awaits_file {
            arguments.file = Some(word);
            awaits_file = false;
        } else if word.as_str() == "--pprof" {
            awaits_file = true;
        } else {
            arguments.words.push(word)?;
        }
    }
    if awaits_file {
        return Ok(None);
    }
    Ok(Some(arguments))
}

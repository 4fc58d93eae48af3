//! How far a question is.

use crate::bytes::Bytes;
use crate::popping::Popping;
use crate::question::Question;
use ti_jdwp::{JdwpError, Value};

/// A variable with its name.
#[derive(Drop)]
pub(crate) struct Named {
    pub(crate) slot: u32,
    pub(crate) first: u32,
    pub(crate) count: u32,
    pub(crate) name: Bytes,
}

/// The value of a variable. Texts and tables have the numbers of what is kept.
#[derive(Clone, Copy)]
pub(crate) struct Row {
    pub(crate) slot: u32,
    pub(crate) value: Value,
}

/// How far the answer to a request is that takes more than one call: a question, or frames that are popped. There is one at most.
#[derive(Drop)]
pub(crate) enum Asked {
    /// Nothing is asked.
    Nothing,
    /// The runtime has not answered yet.
    Open(Question),
    /// The runtime told the variables of a method.
    Variables {
        method: u32,
        variables: Vec<Named>,
    },
    /// The runtime told the values of a frame.
    Values {
        thread: u32,
        depth: u32,
        rows: Vec<Row>,
    },
    /// The runtime cannot tell.
    Untold {
        question: Question,
        error: JdwpError,
    },
    /// A thread's cell was in use while its frames were popped.
    Popping(Popping),
}

impl Asked {
    /// The question that the runtime has not answered yet.
    pub(crate) fn question(&self) -> Option<Question>
        ensures { result ≡ question_in self.now }
    {
        match self {
            Asked::Open(question) => Some(*question),
            _ => None,
        }
    }

    /// Whether the runtime has yet to answer.
    pub(crate) fn is_open(&self) -> bool
        ensures { result ≡ is_some (question_in self.now) }
    {
        self.question().is_some()
    }
}

ghost use Rattle.std.specs.Prelude.{◌≡◌, is_some};
ghost use Rattle.ti_debugger.specs.Questions.{question_in};

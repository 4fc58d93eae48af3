//! What a debugger asks of the runtime's variables, and what the runtime tells of them.

use std::alloc::AllocError;
use thiserror::Error;

/// What a debugger wants to know.
#[derive(Clone, Copy, Debug, PartialEq, Eq)]
pub enum Question {
    /// The names and the scopes of all variables of a method.
    Variables { method: u32 },
    /// The values of all variables of a frame of a thread that is suspended. The newest frame is at depth 0.
    Values { thread: u32, depth: u32 },
}

/// A variable of a method. It is there at the locations from `first` to `first` + `count` - 1. The names of all variables stand one
/// behind the other.
#[repr(C)]
#[derive(Clone, Copy, Debug, PartialEq, Eq)]
pub struct Variable {
    pub slot: u32,
    pub first: u32,
    pub count: u32,
    /// The length of its name in bytes.
    pub name_length: u32,
}

/// What a variable has for its value, or an entry of the table before it.
#[derive(Clone, Copy, Debug, PartialEq, Eq)]
pub enum Content {
    Nil,
    Boolean(bool),
    Integer(i64),
    /// The bits of an IEEE 754 double.
    Number(u64),
    /// A text of so many bytes.
    Text(usize),
    /// A table of so many entries, which come right behind it.
    Table(usize),
    /// An entry of so many bytes, such as `key = value`. Its slot is not looked at.
    Entry(usize),
}

/// The value of a variable. The texts and entries of all values stand one behind the other.
#[derive(Clone, Copy, Debug, PartialEq, Eq)]
pub struct Told {
    pub slot: u32,
    pub content: Content,
}

/// Why an answer to a question is refused. Then nothing changes.
#[derive(Clone, Copy, Debug, PartialEq, Eq, Error)]
pub enum TellError {
    /// 103 ILLEGAL_ARGUMENT (JVM TI 11): the lengths do not add up, a name is not UTF-8, or a table has not its entries.
    #[error("illegal argument")]
    IllegalArgument = 103,
    /// 110 OUT_OF_MEMORY (JVM TI 11): there is no memory, or no room for what is kept.
    #[error("out of memory")]
    OutOfMemory = 110,
    /// 112 WRONG_PHASE (JVM TI 11): no such question is open.
    #[error("no such question is open")]
    NotAsked = 112,
}

impl TellError {
    /// The number by which the error is known: JVM TI 11's.
    pub fn number(self) -> u32
        ensures { result ≡ tell_number self }
    {
        self as u32
    }
}

impl From<AllocError> for TellError {
    ghost use Rattle.std.specs.Prelude.{◌≡◌};
    ghost use Rattle.ti_debugger.specs.declared.question.TellError.TheVariants.{OutOfMemory};

    ghost from_gives = { λ _ e. e ≡ OutOfMemory };

    fn from(_: AllocError) -> Self {
        TellError::OutOfMemory
    }
}

ghost use Rattle.std.specs.Prelude.{◌≡◌};
ghost use Rattle.ti_debugger.specs.Errors.{tell_number};

//! What a profile names, beside what was counted.

/// A function.
#[derive(Drop)]
pub struct Function {
    pub name: String,
    /// The file that it is in. Empty if it is not known.
    pub file: String,
    /// The line at which it begins. 0 if it is not known.
    pub start_line: u32,
}

/// The names of what frames and samples have numbers for: the places in these lists.
#[derive(Drop)]
pub struct Names {
    pub functions: Vec<Function>,
    /// The texts of the label `thread`. A sample whose thread has none has no such label.
    pub threads: Vec<String>,
    /// The texts of the label `state`. A sample whose state has none has no such label.
    pub states: Vec<String>,
}

/// What a stack that was counted stands for.
#[derive(Clone, Copy, Debug, PartialEq, Eq)]
pub enum Unit {
    /// For so many nanoseconds of a thread's time. A sample has two values: its stacks, and their time.
    Wall { period: u64 },
    /// For a thread. A sample has one value: its stacks.
    Threads,
}

impl Unit {
    /// The name of the value that is shown first.
    pub(crate) fn name(self) -> &'static str
        ensures { result.now ≡ unit_name self }
    {
        match self {
            Unit::Wall { .. } => "wall",
            Unit::Threads => "threads",
        }
    }

    /// In which unit that value is.
    pub(crate) fn measure(self) -> &'static str
        ensures { result.now ≡ unit_measure self }
    {
        match self {
            Unit::Wall { .. } => "nanoseconds",
            Unit::Threads => "count",
        }
    }

    /// How much of it one stack stands for.
    pub(crate) fn period(self) -> u64
        ensures { result ≡ unit_period self }
    {
        match self {
            Unit::Wall { period } => period,
            Unit::Threads => 1,
        }
    }
}

/// When and how the stacks were taken.
#[derive(Drop)]
pub struct About {
    /// The name of the program.
    pub program: String,
    pub unit: Unit,
    /// When the profile began, in nanoseconds since 1970. 0 if it is not known.
    pub time: u64,
    /// How long it took, in nanoseconds.
    pub duration: u64,
    /// Lines of text for the reader.
    pub comments: Vec<String>,
}

ghost use Rattle.std.specs.Prelude.{◌≡◌};
ghost use Rattle.ti_pprof.specs.Units.{unit_measure, unit_name, unit_period};

//! The methods of the workers, by name and number.
use ti_types::MethodNo;

/// How many methods there are. Their numbers are those below this one.
pub const METHODS: u32 = 13;

/// A method that a worker may be in.
#[derive(Clone, Copy)]
pub enum Method {
    Worker,
    Parse,
    ParseObject,
    ParseArray,
    ParseString,
    Sort,
    Fill,
    MergeSort,
    SortRun,
    Merge,
    Search,
    Place,
    Rest,
}

impl Method {
    /// The method's number in a frame.
    pub fn number(self) -> MethodNo {
        MethodNo(match self {
            Method::Worker => 0,
            Method::Parse => 1,
            Method::ParseObject => 2,
            Method::ParseArray => 3,
            Method::ParseString => 4,
            Method::Sort => 5,
            Method::Fill => 6,
            Method::MergeSort => 7,
            Method::SortRun => 8,
            Method::Merge => 9,
            Method::Search => 10,
            Method::Place => 11,
            Method::Rest => 12,
        })
    }
}

/// The name of the method of a frame.
pub fn name_of(method: MethodNo) -> &'static str
    ensures { result.now ≡ name_of method.0 }
{
    match method.0 {
        0 => "worker",
        1 => "parse",
        2 => "parse_object",
        3 => "parse_array",
        4 => "parse_string",
        5 => "sort",
        6 => "fill",
        7 => "merge_sort",
        8 => "sort_run",
        9 => "merge",
        10 => "search",
        11 => "place",
        12 => "rest",
        _ => "unknown",
    }
}

ghost use Rattle.std.specs.Prelude.{◌≡◌};
ghost use Rattle.tiprof.specs.Lines.{name_of};

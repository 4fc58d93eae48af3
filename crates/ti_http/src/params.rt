//! The parameters of a query.

use crate::target::{Debug, Labels};

/// Seconds of a profile, at most.
const MAX_SECONDS: u16 = 300;

/// Samples a second, at most.
const MAX_RATE: u16 = 1000;

/// The parameters that a query has.
#[derive(Clone, Copy)]
pub(crate) struct Params {
    pub(crate) seconds: Option<u16>,
    pub(crate) rate: Option<u16>,
    pub(crate) labels: Option<Labels>,
    pub(crate) debug: Option<Debug>,
}

/// How many bytes stand before the first of these, or how many there are.
pub(crate) fn place(bytes: &[u8], byte: u8) -> usize
    ensures place { result ≡ position_or_len (is_byte byte) bytes.now }
    ensures within { result ≤ length bytes.now }
{
    bytes.iter().take_while(|b| **b != byte).count()
}

/// A whole number from 1 to `most`, in digits.
fn number(value: &[u8], most: u16) -> Option<u16>
    ensures { result ≡ number_to most value.now }
{
    let most = u32::from(most);
    let mut n: u32 = 0;
    for b in value {
        if !b.is_ascii_digit() {
            return None;
        }
        n = n * 10 + u32::from(*b - b'0');
        if n > most {
            return None;
        }
    }
    if n == 0 { None } else { Some(n as u16) }
}

/// Which labels the samples of a profile get.
fn labels(value: &[u8]) -> Option<Labels>
    ensures { result ≡ labels_in value.now }
{
    if value == b"none".as_slice() {
        Some(Labels::None)
    } else if value == b"thread".as_slice() {
        Some(Labels::Thread)
    } else if value == b"state".as_slice() {
        Some(Labels::State)
    } else if value == b"thread,state".as_slice() {
        Some(Labels::ThreadAndState)
    } else {
        None
    }
}

fn debug(value: &[u8]) -> Option<Debug>
    ensures { result ≡ debug_in value.now }
{
    if value == b"0".as_slice() {
        Some(Debug::Profile)
    } else if value == b"1".as_slice() {
        Some(Debug::Groups)
    } else if value == b"2".as_slice() {
        Some(Debug::Threads)
    } else {
        None
    }
}

/// A parameter that comes for the first time, with a value that is one.
fn once<T: Copy>(given: Option<T>, value: Option<T>) -> Option<Option<T>>
    ensures { result ≡ once given value }
{
    match (given, value) {
        (None, Some(_)) => Some(value),
        _ => None,
    }
}

impl Params {
    const NONE: Params = Params {
        seconds: None,
        rate: None,
        labels: None,
        debug: None,
    };

    /// The parameters with one more, unless it is there already, its name is unknown, or its value is none.
    fn with(self, name: &[u8], value: &[u8]) -> Option<Params>
        ensures { result ≡ with_param self name.now value.now }
    {
        let mut all = self;
        if name == b"seconds".as_slice() {
            all.seconds = once(self.seconds, number(value, MAX_SECONDS))?;
        } else if name == b"rate".as_slice() {
            all.rate = once(self.rate, number(value, MAX_RATE))?;
        } else if name == b"labels".as_slice() {
            all.labels = once(self.labels, labels(value))?;
        } else if name == b"debug".as_slice() {
            all.debug = once(self.debug, debug(value))?;
        } else {
            return None;
        }
        Some(all)
    }

    /// The same, for a part `name=value` of a query.
    fn with_part(self, part: &[u8]) -> Option<Params>
        ensures { result ≡ with_part self part.now }
    {
        let at = place(part, b'=');
        if at == part.len() {
            return None;
        }
        self.with(&part[..at], &part[at + 1..])
    }

    /// The parameters of a query, whose parts stand between `&`.
    pub(crate) fn read(query: &[u8]) -> Option<Params>
        ensures { result ≡ params_of query.now }
    {
        let mut all = Params::NONE;
        let mut rest = query;
        while place(rest, b'&') < rest.len() {
            let at = place(rest, b'&');
            all = all.with_part(&rest[..at])?;
            rest = &rest[at + 1..];
        }
        all.with_part(rest)
    }
}

ghost use Rattle.std.specs.Prelude.{◌≡◌, ◌≤◌, length};
ghost use Rattle.std.specs.List.{position_or_len};
ghost use Rattle.ti_http.specs.Targets.{is_byte, number_to, labels_in, debug_in, once, with_param, with_part, params_of};

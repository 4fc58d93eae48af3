//! What the arguments ask for.

/// How a sample is taken.
#[derive(Clone, Copy)]
pub enum Way {
    /// Each thread is asked for its stack, and answers at its own poll. No thread is stopped.
    Handshake,
    /// All threads are stopped, read and let go. All stacks are of one moment.
    Standing,
}

/// What the arguments ask for.
#[derive(Clone, Copy)]
pub struct Options {
    /// After how many seconds the sampling ends, from 1 to 86,400.
    pub seconds: Option<u32>,
    /// How many samples are taken at most.
    pub samples: Option<u32>,
    /// After how many rounds of its jobs each worker ends, 1 or more.
    pub jobs: Option<u32>,
    /// The microseconds between two samples, from 1 to 60,000,000.
    pub interval: u32,
    /// How many workers there are, from 1 to 64.
    pub threads: u32,
    /// How many new threads come a second, from 1 to 10,000. `None` for none.
    pub churn: Option<u32>,
    /// How a sample is taken.
    pub way: Way,
    /// Whether the stacks of different workers are kept apart.
    pub by_thread: bool,
    /// Whether a flame graph is written, and not folded stacks.
    pub svg: bool,
}

/// The number whose decimal digits are those of `front` and then these. `None` if one is no digit, or the number is 2^32 or
/// more.
fn digits_behind(front: u32, digits: &[u8]) -> Option<u32>
    ensures { result ≡ digits_behind front digits.now }
{
    let mut number = front;
    for digit in digits {
        if !digit.is_ascii_digit() {
            return None;
        }
        let more = u32::from(*digit - b'0');
        number = number.checked_mul(10)?.checked_add(more)?;
    }
    Some(number)
}

/// The number of a word. `None` if it is empty, has anything but digits, or is 2^32 or more.
fn number_of(word: &str) -> Option<u32>
    ensures { result ≡ number_of word.now }
{
    if word.is_empty() {
        return None;
    }
    digits_behind(0, word.as_bytes())
}

/// The number of a word. `None` if it is no number from `least` to `most`.
fn within(word: &str, least: u32, most: u32) -> Option<u32>
    ensures { result ≡ within least most (number_of word.now) }
{
    let number = number_of(word)?;
    if number < least || most < number {
        return None;
    }
    Some(number)
}

impl Options {
    /// The options if no argument says otherwise. There are 4 threads and a handshake each millisecond, until standard input
    /// is closed. Folded stacks are written.
    fn usual() -> Options
        ensures { result ≡ usual }
    {
        Options {
            seconds: None,
            samples: None,
            jobs: None,
            interval: 1000,
            threads: 4,
            churn: None,
            way: Way::Handshake,
            by_thread: false,
            svg: false,
        }
    }

    /// Whether the sampling ends by itself. Otherwise it ends when standard input is closed.
    pub fn is_bounded(self) -> bool
        ensures { result ≡ is_bounded self }
    {
        self.seconds.is_some() || self.samples.is_some() || self.jobs.is_some()
    }

    /// The options with this one set. `None` if the word is no option without a value.
    fn with_flag(self, word: &str) -> Option<Options>
        ensures { result ≡ with_flag self word.now }
    {
        let mut options = self;
        match word {
            "--handshake" => options.way = Way::Handshake,
            "--standing" => options.way = Way::Standing,
            "--by-thread" => options.by_thread = true,
            "--svg" => options.svg = true,
            _ => return None,
        }
        Some(options)
    }

    /// The options with this one set. `None` if the word is no option with a value, or the value is no number within the
    /// option's bounds.
    fn with(self, word: &str, value: &str) -> Option<Options>
        ensures { result ≡ with_option self word.now value.now }
    {
        let mut options = self;
        match word {
            "--seconds" => options.seconds = Some(within(value, 1, 86_400)?),
            "--samples" => options.samples = Some(within(value, 0, u32::MAX)?),
            "--jobs" => options.jobs = Some(within(value, 1, u32::MAX)?),
            "--interval" => options.interval = within(value, 1, 60_000_000)?,
            "--threads" => options.threads = within(value, 1, 64)?,
            "--churn" => options.churn = Some(within(value, 1, 10_000)?),
            _ => return None,
        }
        Some(options)
    }

    /// The options with all of these words set. `None` if one is no option, or has no fitting value.
    fn with_words(self, words: &[String]) -> Option<Options>
        ensures { result ≡ with_words (Some self) (map string_bytes words.now) }
    {
        match words {
            [] => Some(self),
            [word] => self.with_flag(word.as_str()),
            [word, value, rest @ ..] => match self.with_flag(word.as_str()) {
                Some(options) => options.with_words(&words[1..]),
                None => match self.with(word.as_str(), value.as_str()) {
                    Some(options) => options.with_words(rest),
                    None => None,
                },
            },
        }
    }
}

/// The options that the arguments ask for, without the program's name. `None` if one of them is no option, or has no number
/// within its bounds after it.
pub fn options_of(words: &[String]) -> Option<Options>
    ensures { result ≡ options_by (map string_bytes words.now) }
{
    Options::usual().with_words(words)
}

ghost use Rattle.std.specs.Prelude.{◌≡◌, Some, map, string_bytes};
ghost use Rattle.tiprof.specs.Asked.{digits_behind, is_bounded, number_of, options_of as options_by, usual, with_flag, with_option, with_words, within};

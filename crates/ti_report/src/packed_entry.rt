//! An entry that an agent left, in few bytes.

use ti_types::{Call, Entry, EnvNo};

/// An entry that an agent left, without the agent's number. It is the entry itself, if that has at most one number besides.
/// Otherwise it is the entry's place in the history.
///
/// So most entries need not be looked up. Each agent's entries lie far apart in a history.
#[derive(Clone, Copy)]
pub enum Left {
    State(u32),
    FrameCount(u32),
    Suspend(u32),
    Resume(u32),
    GetWord(u32),
    Pop(u32),
    Stop,
    Read(i32),
    Go,
    /// The entry at this place of the history.
    At(u32),
}

impl Left {
    /// An entry of an agent, which lies at this place of the history.
    #[inline(always)]
    pub fn of(entry: Entry, place: u32) -> Left
        ensures { (e : EnvNo) (entries : List Entry) → is_left_by e entry ≡ true → get_or entries place Start ≡ entry → left_in e entries result ≡ entry }
    {
        match entry {
            Entry::Asked(_, no, call) => match u32::try_from(no) {
                Ok(no) => Left::asked(no, call, place),
                Err(_) => Left::At(place),
            },
            Entry::Stop(_) => Left::Stop,
            Entry::Read(_, max_count) => Left::Read(max_count),
            Entry::Go(_) => Left::Go,
            _ => Left::At(place),
        }
    }

    /// A call with this number, which lies at this place of the history.
    #[inline(always)]
    fn asked(no: u32, call: Call, place: u32) -> Left
        ensures { (e : EnvNo) (entries : List Entry) → get_or entries place Start ≡ Asked e no call → left_in e entries result ≡ Asked e no call }
    {
        match call {
            Call::State => Left::State(no),
            Call::FrameCount => Left::FrameCount(no),
            Call::Suspend => Left::Suspend(no),
            Call::Resume => Left::Resume(no),
            Call::GetWord => Left::GetWord(no),
            Call::Pop => Left::Pop(no),
            Call::Trace { .. } | Call::Location { .. } | Call::SetWord(_) => Left::At(place),
        }
    }

    /// The entry, for this agent's environment. `entries` are those of the history. It is a start if there is none at the
    /// place.
    #[inline(always)]
    pub fn entry(self, env: EnvNo, entries: &[Entry]) -> Entry
        ensures { result ≡ left_in env entries.now self }
    {
        match self {
            Left::State(no) => Entry::Asked(env, u64::from(no), Call::State),
            Left::FrameCount(no) => Entry::Asked(env, u64::from(no), Call::FrameCount),
            Left::Suspend(no) => Entry::Asked(env, u64::from(no), Call::Suspend),
            Left::Resume(no) => Entry::Asked(env, u64::from(no), Call::Resume),
            Left::GetWord(no) => Entry::Asked(env, u64::from(no), Call::GetWord),
            Left::Pop(no) => Entry::Asked(env, u64::from(no), Call::Pop),
            Left::Stop => Entry::Stop(env),
            Left::Read(max_count) => Entry::Read(env, max_count),
            Left::Go => Entry::Go(env),
            Left::At(place) => entry_in(entries, place),
        }
    }
}

/// The entry at a place of a history, or a start if there is none.
#[inline(always)]
fn entry_in(entries: &[Entry], place: u32) -> Entry
    ensures { result ≡ get_or entries.now place Start }
{
    let at = place as usize;
    if at < entries.len() {
        entries[at]
    } else {
        Entry::Start
    }
}

ghost use Rattle.std.specs.Prelude.{◌≡◌, get_or, true, List};
ghost use Rattle.ti_types.specs.declared.entry.Entry.{Entry};
ghost use Rattle.ti_types.specs.declared.entry.Entry.TheVariants.{Start, Asked};
ghost use Rattle.ti_types.specs.declared.numbers.EnvNo.{EnvNo};
ghost use Rattle.ti_report.specs.Told.{is_left_by};
ghost use Rattle.ti_report.specs.Lefts.{left_in};

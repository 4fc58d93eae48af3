//! How many requests were answered with each status.

/// How many answers had each code.
#[derive(Clone, Copy)]
pub(crate) struct Tally {
    rows: [(u16, u64); 14],
}

impl Tally {
    /// No answer yet.
    pub(crate) fn new() -> Tally
        ensures { result.rows ≡ no_answers }
    {
        Tally {
            rows: [
                (200, 0),
                (400, 0),
                (403, 0),
                (404, 0),
                (405, 0),
                (408, 0),
                (413, 0),
                (414, 0),
                (421, 0),
                (431, 0),
                (500, 0),
                (501, 0),
                (503, 0),
                (505, 0),
            ],
        }
    }

    /// Counts an answer. A count stays at 2^64 - 1 once it is there.
    pub(crate) fn add(&mut self, code: u16)
        ensures { self.new.rows ≡ map (counted code) self.old.rows }
    {
        for place in 0..self.rows.len() {
            self.rows[place] = counted(code, self.rows[place]);
        }
    }

    /// Counts the answer that these bytes begin with, if more were answered after than before.
    pub(crate) fn add_told(&mut self, before: u32, after: u32, answer: &[u8])
        ensures { self.new.rows ≡ rows_after before after answer.now self.old.rows }
    {
        if before < after {
            self.add(code_in(answer));
        }
    }

    /// Each code with how many answers had it.
    pub(crate) fn rows(&self) -> &[(u16, u64)]
        ensures { result.now ≡ self.now.rows }
    {
        &self.rows
    }
}

/// A row of a code, with one more if it is this one.
fn counted(code: u16, row: (u16, u64)) -> (u16, u64)
    ensures { result ≡ counted code row }
{
    if row.0 == code {
        (row.0, row.1.saturating_add(1))
    } else {
        row
    }
}

/// What a digit stands for, if it is one.
fn digit(byte: u8) -> u16
    ensures value { result ≡ digit byte }
    ensures small { result < 256 }
{
    u16::from(byte.saturating_sub(48))
}

/// The code of an answer whose first line begins with `HTTP/1.1 ` and three digits. 0 if there are no 12 bytes.
fn code_in(answer: &[u8]) -> u16
    ensures { result ≡ code_in answer.now }
{
    if answer.len() < 12 {
        return 0;
    }
    digit(answer[9]) * 100 + digit(answer[10]) * 10 + digit(answer[11])
}

ghost use Rattle.std.specs.Prelude.{◌≡◌, ◌<◌, map};
ghost use Rattle.ti_monitor.specs.Door.{code_in, counted, digit, no_answers};
ghost use Rattle.ti_monitor.specs.Serving.{rows_after};

//! Calls that wait for their cell: each makes a try that never waits until the cell is not in use. Between its tries it waits a little,
//! as its pace has it, and in the end it wakes whoever sleeps and may go on.

/// Makes a try of a desk until its cell is not in use, and returns what came of it.
macro_rules! until_free {
    ($desk:ident, $rt:ident, $tried:expr) => {{
        let pace = ti_cell::Pace::new();
        for _ in $rt.forever() {
            match $tried {
                Ok(done) => {
                    $desk.wake_sleepers();
                    return done;
                }
                Err(_busy) => $desk.cell.await_free($rt, &pace),
            }
        }
        unreachable!()
    }};
}

/// Makes a try of a thread until its cell is not in use, and returns what became of the thread. The try takes the thread, and its error
/// is the thread as it was.
macro_rules! until_held {
    ($thread:ident, $rt:ident, $tries:ident) => {{
        let pace = ti_cell::Pace::new();
        let mut thread = $thread;
        for _ in $rt.forever() {
            match thread.$tries() {
                Ok(done) => {
                    done.wake_sleepers();
                    return done;
                }
                Err(again) => thread = again,
            }
            thread.cell.await_free($rt, &pace);
        }
        unreachable!()
    }};
}

/// The same for a try that may be refused. Then the thread comes back with the error.
macro_rules! until_settled {
    ($thread:ident, $rt:ident, $tries:ident($($given:expr)?)) => {{
        let pace = ti_cell::Pace::new();
        let mut thread = $thread;
        for _ in $rt.forever() {
            match thread.$tries($($given)?) {
                Ok(done) => {
                    done.wake_sleepers();
                    return Ok(done);
                }
                Err((ti_types::TiError::Busy, again)) => thread = again,
                Err((error, refused)) => {
                    refused.wake_sleepers();
                    return Err((error, refused));
                }
            }
            thread.cell.await_free($rt, &pace);
        }
        unreachable!()
    }};
}

pub(crate) use until_free;
pub(crate) use until_held;
pub(crate) use until_settled;

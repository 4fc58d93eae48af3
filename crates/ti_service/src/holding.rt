//! Holds of the roster: a try that holds it just once, and calls that wait until it is not in use.

/// Tries to hold the roster of a handle just once, and gives what is said of it. If the roster is in use, the error is the last that is
/// given, and nothing changes.
macro_rules! try_hold {
    ($service:ident, |$roster:ident| $said:expr, else $busy:expr) => {{
        let Some(seat) = $service.seat.take() else {
            unreachable!()
        };
        match $service.roster.hold_now(seat) {
            Ok(mut hold) => {
                let $roster = hold.roster();
                let said = $said;
                $service.seat = Some(hold.store_quietly());
                said
            }
            Err(seat) => {
                $service.seat = Some(seat);
                Err($busy)
            }
        }
    }};
}

/// Makes a try of a handle until the roster is not in use, and returns what came of it. Between its tries it waits a little, as its pace
/// has it, and in the end it wakes whoever sleeps and may go on.
macro_rules! until_free {
    ($service:ident, $rt:ident, $busy:pat, $tried:expr) => {{
        let pace = ti_cell::Pace::new();
        for _ in $rt.forever() {
            match $tried {
                Err($busy) => $service.roster.await_free($rt, &pace),
                result => {
                    $service.wake_sleepers();
                    return result;
                }
            }
        }
        unreachable!()
    }};
}

pub(crate) use try_hold;
pub(crate) use until_free;

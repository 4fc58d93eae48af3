//! Whether a list call fits its codes.

use crate::account::Account;
use crate::book::Book;
use ti_types::{Call, Event, Limits, ThreadNo};

/// Whether these are the codes of the same call at each of these threads, one after another.
pub fn codes_fit(
    account: &mut Account,
    limits: Limits,
    books: &[Book<'_>],
    wanting: bool,
    threads: &[ThreadNo],
    call: Call,
    codes: &[u32],
) -> bool
    ensures fits { (result ≡ true) ↔ (map Some codes.now ≡ codes_now limits (λ t. page_in (slice_get books.now t) account.old.env) account.old wanting (map (λ t. Ask account.old.env t call) threads.now)) }
    ensures account { result ≡ true → account.new ≡ accounted_all limits account.old wanting (map (λ t. Ask account.old.env t call) threads.now) }
{
    if codes.len() != threads.len() {
        return false;
    }
    let env = account.env();
    for i in 0..threads.len() {
        let event = Event::Ask(env, threads[i], call);
        let why = account.why(limits, wanting, event);
        let Some(code) = account.code(limits, books, why, event) else {
            return false;
        };
        if code != codes[i] {
            return false;
        }
        account.account(why, event);
    }
    true
}

ghost use Rattle.std.specs.Prelude.{◌≡◌, ◌↔◌, true, map, Some, slice_get};
ghost use Rattle.ti_types.specs.declared.event.Event.TheVariants.{Ask};
ghost use Rattle.ti_report.specs.Books.{page_in};
ghost use Rattle.ti_report.specs.Accounts.{codes_now, accounted_all};

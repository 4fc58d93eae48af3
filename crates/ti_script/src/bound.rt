//! Bounds for the length of a line.

use ti_types::{Answer, Outcome};

/// At most this many bytes are in a line besides its frames.
const LINE: usize = 256;

/// At most this many bytes are in a frame's text besides its method's name. The space before the frame counts.
const FRAME: usize = 66;

/// How many frames the text of an outcome has.
fn frames_in_line(outcome: &Option<Outcome>) -> usize
    ensures { result ≡ frames_in_line outcome.now }
{
    match outcome {
        Some(Outcome::Gave(Answer::Trace(trace))) => trace.frames().len(),
        Some(Outcome::Gave(Answer::Stack { frames, .. })) => frames.frames().len(),
        Some(Outcome::Gave(Answer::Location(_))) => 1,
        _ => 0,
    }
}

/// `count * each + more`, or `None` if that is no `usize`.
fn sum_of(count: usize, each: usize, more: usize) -> Option<usize>
    ensures sum { IfSome result (λ n. n ≡ count * each + more) }
    ensures large { IfNone result (2 ^ 64 ≤ count * each + more) }
{
    count.checked_mul(each)?.checked_add(more)
}

/// A length in bytes that the line of an outcome does not exceed, whatever its index. No method's name may be longer than
/// `longest_name` bytes. It takes constant time.
///
/// `None` only if the bound for the frames of the line, and one frame more, is beyond what a `usize` counts.
#[tactic(auto, using(crate::proofs::BoundLaws::line_within))]
pub fn line_bound(longest_name: usize, outcome: &Option<Outcome>) -> Option<usize>
    ensures bound { IfSome result (λ n. (methods : List (List ℕ)) (index : ℕ) → AreNamesWithin longest_name methods → length (line_text methods index outcome.now) ≤ n) }
    ensures large { IfNone result (2 ^ 64 ≤ (frames_in_line outcome.now + 1) * (longest_name + 66) + 256) }
{
    let frame = longest_name.checked_add(FRAME)?;
    sum_of(frames_in_line(outcome), frame, LINE)
}

ghost use Rattle.std.specs.Prelude.{◌≡◌, ◌≤◌, ◌+◌, ◌*◌, ◌^◌, ℕ, List, length, IfSome, IfNone};
ghost use Rattle.ti_script.specs.Texts.{line_text};
ghost use Rattle.ti_script.specs.Bounds.{AreNamesWithin, frames_in_line};

//! What a slot keeps of its thread besides the frames, and what calls change in it.

use ti_frames::Frames;
use ti_replay::rules::is_alive;
use ti_types::{Call, EnvNo, Mode, Step, TiError, WordList, popping_refusal};

/// What is known of a thread besides its frames.
#[derive(Drop, Debug)]
pub struct Condition {
    pub mode: Mode,
    pub suspended: bool,
    /// The environment whose stop is in force.
    pub stopper: Option<EnvNo>,
    /// One word per environment.
    pub words: WordList,
}

/// Why the newest of these frames may not be popped, if the thread is alive. `None` if it may (JVM TI 11, PopFrame).
pub fn pop_refusal(condition: &Condition, frames: &Frames) -> Option<TiError>
    ensures { result ≡ pop_refusal_of condition.now.suspended frames.now.frames }
{
    popping_refusal(condition.suspended, frames.top(0), frames.top(1))
}

/// Lets a pop take place. The newest frame goes if it may, and the frames below stay as they are.
fn pop(condition: &Condition, frames: &mut Frames)
    ensures view { (env : EnvNo) → view_of condition.now frames.new.frames ≡ called (view_of condition.now frames.old.frames) env call.Pop }
    ensures depth { frames.new.depth ≡ frames.old.depth }
{
    if is_alive(condition.mode) && pop_refusal(condition, frames).is_none() {
        let _ = frames.apply(Step::Leave);
    }
}

/// Lets a call take place that changes no frames.
#[inline(always)]
pub fn set(condition: &mut Condition, env: EnvNo, call: Call)
    requires { is_pop call ≡ false }
    ensures { (frames : List Frame) → view_of condition.new frames ≡ called (view_of condition.old frames) env call }
{
    if is_alive(condition.mode) {
        match call {
            Call::Suspend => condition.suspended = true,
            Call::Resume => condition.suspended = false,
            Call::SetWord(word) => condition.words.set(env.0 as usize, word),
            _ => (),
        }
    }
}

/// Lets a call take place at a thread whose frames are here.
pub fn take_call(condition: &mut Condition, frames: &mut Frames, env: EnvNo, call: Call)
    ensures view { view_of condition.new frames.new.frames ≡ called (view_of condition.old frames.old.frames) env call }
    ensures depth { frames.new.depth ≡ frames.old.depth }
{
    match call {
        Call::Pop => pop(condition, frames),
        _ => set(condition, env, call),
    }
}

ghost use Rattle.std.specs.Prelude.{◌≡◌, List, false};
ghost use Rattle.ti_types.specs.declared.numbers.EnvNo.{EnvNo};
ghost use Rattle.ti_types.specs.declared.call.Call.TheVariants as call;
ghost use Rattle.ti_types.specs.declared.place.Frame.{Frame};
ghost use Rattle.ti_replay.specs.Answers.{pop_refusal as pop_refusal_of};
ghost use Rattle.ti_replay.specs.View.{called};
ghost use Rattle.ti_slot.specs.Condition.{view_of, is_pop};

//! What the arguments ask for.

use crate::fault::Fault;
use std::env;
use std::io::ErrorKind;
use std::rt::Env;

/// What the arguments ask for.
#[derive(Clone, Copy, Debug, PartialEq, Eq)]
pub enum Command {
    /// Run the walk on standard input, and write its outcomes.
    Walk,
    /// Run the live script on standard input, and write its report.
    Live,
    /// Say whether the history on standard input is legal.
    Check,
}

fn command_named(word: &str) -> Result<Command, Fault>
    ensures { result ≡ command_named word.now }
{
    match word {
        "walk" => Ok(Command::Walk),
        "live" => Ok(Command::Live),
        "check" => Ok(Command::Check),
        _ => Err(Fault::Usage),
    }
}

/// The command of these arguments, without the program's name. No argument and `walk` ask for a walk, and `live` for a live
/// run. `check` asks for the verdict on a history.
///
/// `Usage` for every other word, and for more than one. Source: this profile.
pub fn command_of(words: &[String]) -> Result<Command, Fault>
    ensures { result ≡ command_of (map string_bytes words.now) }
{
    match words {
        [] => Ok(Command::Walk),
        [word] => command_named(word.as_str()),
        _ => Err(Fault::Usage),
    }
}

/// The arguments after the program's name. `Usage` if one of them is no text, and `Memory` if memory runs out.
fn arguments<R: Env + AllocGlobal>(rt: &R) -> Result<Vec<String>, Fault>
    ensures { IfErr result (λ e. IsUsageOrMemory e) }
{
    let mut words = match env::args(rt) {
        Ok(words) => words,
        Err(e) => {
            return Err(if e.kind() == ErrorKind::OutOfMemory {
                Fault::Memory
            } else {
                Fault::Usage
            });
        }
    };
    let _program = words.next();
    let words = words.collect(rt.alloc())?;
    Ok(words)
}

/// The command with which the process was started. `Usage` if the arguments name no command, or if one of them is no text.
/// `Memory` if memory runs out for them. It reads no input. Source: this profile.
pub fn asked_command<R: Env + AllocGlobal>(rt: &R) -> Result<Command, Fault>
    ensures { IfErr result (λ e. IsUsageOrMemory e) }
{
    let words = arguments(rt)?;
    command_of(&words)
}

ghost use Rattle.std.specs.Prelude.{◌≡◌, map, string_bytes, IfErr};
ghost use Rattle.ti_driver.specs.Commands.{command_named, command_of, IsUsageOrMemory};

//! Writes the fault line, which says why a run has no result.

use crate::fault::Fault;
use crate::output::write_whole;
use itoa::Buffer;
use std::io::Write;
use ti_script::ScriptFault;

#[tactic(auto, using(crate::proofs::StreamLaws::fronts))]
fn put_two<W: Write>(writer: &mut W, first: &[u8], second: &[u8]) -> Result<(), Fault>
    ensures ok { OnOk result (Appends (W.contents writer.old) (W.contents writer.new) (first.now ++ second.now)) }
    ensures err { IfErr result (λ e. e ≡ NotWritten) }
    ensures front { TakesFront (W.contents writer.old) (W.contents writer.new) (first.now ++ second.now) }
{
    write_whole(writer, first)?;
    write_whole(writer, second)
}

/// Writes these words and a number in decimal.
pub(crate) fn put_numbered<W: Write>(writer: &mut W, words: &str, number: u64) -> Result<(), Fault>
    ensures ok { OnOk result (Appends (W.contents writer.old) (W.contents writer.new) (words.now ++ decimal number)) }
    ensures err { IfErr result (λ e. e ≡ NotWritten) }
    ensures front { TakesFront (W.contents writer.old) (W.contents writer.new) (words.now ++ decimal number) }
{
    let mut digits = Buffer::new();
    put_two(writer, words.as_bytes(), digits.format(number).as_bytes())
}

fn put_script_text<W: Write>(writer: &mut W, fault: &ScriptFault) -> Result<(), Fault>
    ensures ok { OnOk result (Appends (W.contents writer.old) (W.contents writer.new) (script_text fault.now)) }
    ensures err { IfErr result (λ e. e ≡ NotWritten) }
    ensures front { TakesFront (W.contents writer.old) (W.contents writer.new) (script_text fault.now) }
{
    match fault {
        ScriptFault::Json => write_whole(writer, b"json"),
        ScriptFault::Shape { item } => put_numbered(writer, "shape at item ", u64::from(*item)),
        ScriptFault::Name { item } => put_numbered(writer, "name at item ", u64::from(*item)),
        ScriptFault::Limit { which } => { put_two(writer, b"limit ", which.text().as_bytes()) }
        ScriptFault::Memory => write_whole(writer, b"memory"),
    }
}

fn put_fault_text<W: Write>(writer: &mut W, fault: &Fault) -> Result<(), Fault>
    ensures ok { OnOk result (Appends (W.contents writer.old) (W.contents writer.new) (fault_text fault.now)) }
    ensures err { IfErr result (λ e. e ≡ NotWritten) }
    ensures front { TakesFront (W.contents writer.old) (W.contents writer.new) (fault_text fault.now) }
{
    match fault {
        Fault::Script(fault) => put_script_text(writer, fault),
        Fault::Memory => write_whole(writer, b"memory"),
        Fault::Read => write_whole(writer, b"read"),
        Fault::Write => write_whole(writer, b"write"),
        Fault::Cell => write_whole(writer, b"cell"),
        Fault::Usage => write_whole(writer, b"usage: tiwalk [walk|live|check]"),
    }
}

/// Writes the fault line: `tiwalk: `, the fault's text, and a line feed. It takes no memory. `Write` if the writer fails or
/// takes no byte. It then has a prefix of the line. Source: this profile.
#[tactic(auto, using(crate::proofs::StreamLaws::fronts))]
pub fn put_fault<W: Write>(writer: &mut W, fault: &Fault) -> Result<(), Fault>
    ensures ok { OnOk result (Appends (W.contents writer.old) (W.contents writer.new) (fault_line fault.now)) }
    ensures err { IfErr result (λ e. e ≡ NotWritten) }
    ensures front { TakesFront (W.contents writer.old) (W.contents writer.new) (fault_line fault.now) }
{
    write_whole(writer, b"tiwalk: ")?;
    put_fault_text(writer, fault)?;
    write_whole(writer, b"\n")
}

ghost use Rattle.std.specs.Prelude.{◌≡◌, ◌++◌, OnOk, IfErr, decimal};
ghost use Rattle.std.specs.Io.KnownBytes.{Appends};
ghost use Rattle.ti_driver.specs.declared.fault.Fault.TheVariants.{Write as NotWritten};
ghost use Rattle.ti_driver.specs.Faults.{script_text, fault_text, fault_line};
ghost use Rattle.ti_driver.specs.Streams.{TakesFront};

//! Reads all bytes of a reader, up to the greatest length of a document.

use crate::fault::Fault;
use std::alloc::Global;
use std::io::Read;
use ti_script::{LimitName, ScriptFault};

/// The most bytes that a document may have.
const MAX_INPUT: usize = 8_388_608;

/// The most calls of the reader that are made.
const MAX_READS: u32 = 16_777_216;

/// All bytes that the reader has: at most 8,388,608, in at most 16,777,216 calls.
///
/// `Script` with the limit `input` if there are more bytes. `Read` at the reader's first error, or if the calls do not
/// suffice. `Memory` if memory runs out. After a fault it is open how far the reader was read. Source: this profile.
pub fn read_input<R: Read>(alloc: Global, reader: &mut R) -> Result<Vec<u8>, Fault>
    ensures all { IfOk result (λ bytes. IsAllOf (R.remaining reader.old) bytes.items) }
    ensures short { IfOk result (λ bytes. length bytes.items ≤ 8388608) }
    ensures err { IfErr result (λ e. IsReadFault (R.remaining reader.old) e) }
{
    let mut bytes = Vec::new(alloc);
    let mut chunk = [0u8; 4096];
    for _ in 0..MAX_READS {
        match reader.read(&mut chunk) {
            Ok(0) => return Ok(bytes),
            Ok(count) => {
                if count > MAX_INPUT - bytes.len() {
                    return Err(Fault::Script(ScriptFault::Limit {
                        which: LimitName::Input,
                    }));
                }
                bytes.extend_from_slice(&chunk[..count])?;
            }
            Err(_) => return Err(Fault::Read),
        }
    }
    Err(Fault::Read)
}

ghost use Rattle.std.specs.Prelude.{◌≤◌, length, IfOk, IfErr};
ghost use Rattle.ti_driver.specs.Runs.{IsReadFault};
ghost use Rattle.ti_driver.specs.Streams.{IsAllOf};

//! Reads an input to its end, with a bound on its bytes and on the calls of `read`.

ghost use Rattle.std.specs.Prelude.{◌≤◌, IsErrOf, IfOk, OnOk, vec_len};
ghost use Rattle.std.specs.Io.KnownBytes.{Consumes, IsAtEnd};
ghost use Rattle.bk_store.specs.declared.answer.OpenFault.{OpenFault};

use crate::ScriptFault;
use std::alloc::Global;
use std::io::Read;

/// Largest input in bytes (this project's rule).
const MAX_BYTES: usize = 16_777_216;

/// Largest number of calls of `read`, the last one included (this project's rule).
const MAX_READS: u32 = 1_048_576;

/// Reads all bytes of a reader.
///
/// # Errors
///
/// - `Read`: a read fails, or the input exceeds a bound.
/// - `Memory`: out of memory.
pub(crate) fn read_input<R: Read>(alloc: Global, reader: &mut R) -> Result<Vec<u8>, ScriptFault>
    ensures bytes { IfOk result (λ input. Consumes (R.remaining reader.old) (R.remaining reader.new) input.items) }
    ensures end { OnOk result (IsAtEnd (R.remaining reader.new)) }
    ensures bound { IfOk result (λ input. vec_len input ≤ MAX_BYTES) }
    ensures never { (fault : OpenFault) → ¬ (IsErrOf result (ScriptFault.Open fault)) }
{
    let mut input = Vec::new(alloc);
    let mut chunk = [0; 8192];
    for _ in 0..MAX_READS {
        let Ok(count) = reader.read(&mut chunk) else {
            return Err(ScriptFault::Read);
        };
        if count == 0 {
            return Ok(input);
        }
        if count > MAX_BYTES - input.len() {
            return Err(ScriptFault::Read);
        }
        if input.extend_from_slice(&chunk[..count]).is_err() {
            return Err(ScriptFault::Memory);
        }
    }
    Err(ScriptFault::Read)
}

//! Parses a script.

ghost use Rattle.std.specs.Prelude.{◌≡◌, ℕ, IsErrOf, IfOk};
ghost use Rattle.bk_store.specs.declared.answer.OpenFault.{OpenFault};
ghost use Rattle.bk_script.specs.Script.{IsScript, IsFirstBad};

use crate::ScriptFault;
use crate::line::{LAST_READER, LineFault, read_step};
use bk_drive::Step;
use std::alloc::Global;

/// Parses an input to its steps, one for each non-empty line.
///
/// # Errors
///
/// - `Bad`: the number of the first line that encodes no step.
/// - `Memory`: out of memory.
pub(crate) fn read_steps(alloc: Global, input: &[u8]) -> Result<Vec<Step>, ScriptFault>
    ensures ok { IfOk result (λ steps. IsScript input.now steps.items) }
    ensures bad { (number : ℕ) → result ≡ Err (ScriptFault.Bad number) → IsFirstBad input.now number }
    ensures never { (fault : OpenFault) → ¬ (IsErrOf result (ScriptFault.Open fault)) }
{
    let mut steps = Vec::new(alloc);
    for (index, line) in input.split(|byte| *byte == b'\n').enumerate() {
        if line.is_empty() {
            continue;
        }
        match read_step(alloc, line, LAST_READER) {
            Ok(step) => match steps.push(step) {
                Ok(()) => {}
                Err(_) => return Err(ScriptFault::Memory),
            },
            Err(LineFault::Bad) => return Err(ScriptFault::Bad(index as u64 + 1)),
            Err(LineFault::Memory) => return Err(ScriptFault::Memory),
        }
    }
    Ok(steps)
}

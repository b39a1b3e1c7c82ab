//! Runs a script. The whole input is read and parsed before the first step, and the answers are
//! printed after the last.

ghost use Rattle.std.specs.Prelude.{◌≡◌, ◌≤◌, List, IfOk, IfSome, IsErr, IsErrOf, IsTrue, OnOk};
ghost use Rattle.std.specs.Io.KnownBytes.{Appends, Keeps};
ghost use Rattle.bk_disk.specs.Disk.{AreSound};
ghost use Rattle.bk_drive.specs.declared.step.Step.{Step};
ghost use Rattle.bk_store.specs.Opening.{NeverFails};
ghost use Rattle.bk_store.specs.declared.answer.OpenFault.TheVariants.{Disk};
ghost use Rattle.bk_script.specs.Run.{AnswersScript, RunsOn, RunsScript};
ghost use Rattle.bk_script.specs.Script.{IsScript};
ghost use Rattle.bk_script.specs.Text.{lines_of};

use crate::disk::ScriptDisk;
use crate::input::read_input;
use crate::script::read_steps;
use crate::text::Text;
use crate::{RunFault, ScriptFault};
use bk_disk::MemDisk;
use bk_drive::{Answer, Settings, Step};
use std::alloc::Global;
use std::io;
use std::io::{Read, Write};

/// Runs the script of a reader on a new disk in memory and writes one line for each step.
///
/// `dead` lists the ledgers deleted earlier. Returns the exit status of the program: 0, also if the
/// answer of a step is a fault, or 1.
///
/// # Errors
///
/// Status 1, with a line on the error stream and nothing written to `writer`:
///
/// - `read fault`: a read fails or the input exceeds a bound.
/// - `line N: bad command`: line N is the first that encodes no step.
/// - `fault settings`: a setting is out of range; `fault TEXT`: the store is not opened.
/// - `fault memory`: out of memory outside a step.
///
/// Status 1 without such a line: a write fails.
pub fn run_script<R: Read, W: Write, E: Write>(
    alloc: Global,
    settings: Settings,
    dead: &[u64],
    reader: &mut R,
    writer: &mut W,
    errors: &mut E,
) -> u8
    ensures status { result ≤ 1 }
    ensures done { result ≡ 0 → RunsScript settings dead.now (R.remaining reader.old) (R.remaining reader.new)
        (W.contents writer.old) (W.contents writer.new) }
    ensures bad { IfSome (R.remaining reader.old) (λ input. ((steps : List Step) → ¬ (IsScript input steps))
        → (result ≡ 1) × Keeps (W.contents writer.old) (W.contents writer.new)) }
{
    let disk = MemDisk::new(alloc);
    match run_on(alloc, disk, settings, dead, reader, writer) {
        Ok(()) => 0,
        Err(fault) => {
            tell(&fault, errors);
            1
        }
    }
}

/// Writes the reason of a script that is not run to the error stream. The status does not depend on
/// whether this write succeeds.
fn tell<E: Write>(fault: &RunFault, errors: &mut E) {
    match fault {
        RunFault::Script(fault) => {
            let _ = writeln!(errors, "{fault}");
        }
        RunFault::Output(_) => {}
    }
}

/// Runs the script of a reader on this disk. The store is opened after the whole script was parsed.
///
/// # Errors
///
/// - `Script`: the script is not run, and nothing is written to `writer`. The reason is not that the
///   store is not opened with `Disk`, if the device never fails and views are sound.
/// - `Output`: a write fails.
pub fn run_on<D: ScriptDisk, R: Read, W: Write>(
    alloc: Global,
    disk: D,
    settings: Settings,
    dead: &[u64],
    reader: &mut R,
    writer: &mut W,
) -> Result<(), RunFault>
    ensures done { OnOk result (RunsOn (IsTrue (D.honest disk)) (NeverFails D.failures × AreSound D.View.sound) (D.files disk)
        settings dead.now (R.remaining reader.old) (R.remaining reader.new) (W.contents writer.old) (W.contents writer.new)) }
    ensures bad { IfSome (R.remaining reader.old) (λ input. ((steps : List Step) → ¬ (IsScript input steps))
        → IsErr result × Keeps (W.contents writer.old) (W.contents writer.new)) }
    ensures unfailing { NeverFails D.failures → AreSound D.View.sound
        → ¬ (IsErrOf result (RunFault.Script (ScriptFault.Open Disk))) }
{
    let answers = answers_to(alloc, disk, settings, dead, reader)?;
    write_answers(writer, &answers)?;
    Ok(())
}

/// Reads the script, runs its steps on this disk and returns their answers.
fn answers_to<D: ScriptDisk, R: Read>(
    alloc: Global,
    disk: D,
    settings: Settings,
    dead: &[u64],
    reader: &mut R,
) -> Result<Vec<Answer>, ScriptFault>
    ensures ok { IfOk result (λ answers. AnswersScript (IsTrue (D.honest disk)) (NeverFails D.failures × AreSound D.View.sound)
        (D.files disk) settings dead.now (R.remaining reader.old) (R.remaining reader.new) answers.items) }
    ensures bad { IfSome (R.remaining reader.old) (λ input. ((steps : List Step) → ¬ (IsScript input steps))
        → IsErr result) }
    ensures unfailing { NeverFails D.failures → AreSound D.View.sound → ¬ (IsErrOf result (ScriptFault.Open Disk)) }
{
    let input = read_input(alloc, reader)?;
    let steps = read_steps(alloc, &input)?;
    match disk.answers(alloc, settings, dead, &steps) {
        Ok(answers) => Ok(answers),
        Err(fault) => Err(ScriptFault::Open(fault)),
    }
}

/// Writes one line for each answer and flushes the writer.
fn write_answers<W: Write>(writer: &mut W, answers: &[Answer]) -> io::Result<()>
    ensures { OnOk result (Appends (W.contents writer.old) (W.contents writer.new) (lines_of answers.now)) }
{
    for answer in answers {
        writeln!(writer, "{}", Text(answer))?;
    }
    writer.flush()
}

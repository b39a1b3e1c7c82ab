//! The forms of output: text, and JSON Lines.

ghost use Rattle.std.specs.Prelude.{IfSome, OnOk};
ghost use Rattle.std.specs.Fmt.{with_newline};
ghost use Rattle.std.specs.Io.KnownBytes.{Appends};
ghost use Rattle.bk_inspect.specs.Forms.{followed};

use crate::DirFault;
use serde::Serialize;
use std::alloc::Global;
use std::fmt::Display;
use std::io::Write;

/// The form of the rows of a command and of its faults. Each row is a line.
#[derive(Clone, Copy, Debug, PartialEq, Eq)]
pub enum Form {
    /// Words and numbers, separated by spaces.
    Text,
    /// JSON Lines: one object per line.
    Json,
}

/// Writes a row as a line.
pub(crate) fn write_row<R: Display + Serialize, W: Write>(
    alloc: Global,
    form: Form,
    row: &R,
    writer: &mut W,
) -> Result<(), DirFault>
    ensures { OnOk result (IfSome (with_newline (R.output row.now))
        (Appends (followed form (W.contents writer.old)) (followed form (W.contents writer.new)))) }
{
    match form {
        Form::Text => writeln!(writer, "{row}")?,
        Form::Json => write_object(alloc, row, writer)?,
    }
    Ok(())
}

/// Writes a row as a JSON object, and the end of the line. Writes nothing if memory is refused.
pub(crate) fn write_object<R: Serialize, W: Write>(
    alloc: Global,
    row: &R,
    writer: &mut W,
) -> Result<(), DirFault> {
    let Ok(object) = serde_json::to_string(alloc, row) else {
        return Err(DirFault::Memory);
    };
    writeln!(writer, "{object}")?;
    Ok(())
}

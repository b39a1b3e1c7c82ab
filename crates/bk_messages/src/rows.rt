//! Rows of commands, each a line: text, or a JSON object.

ghost use Rattle.std.specs.Prelude.{IfSome, OnOk};
ghost use Rattle.std.specs.Fmt.{with_newline};
ghost use Rattle.std.specs.Io.KnownBytes.{Appends};
ghost use Rattle.bk_inspect.specs.Forms.{followed};

use bk_inspect::Form;
use serde::Serialize;
use std::alloc::{AllocError, Global};
use std::fmt::Display;
use std::io;
use std::io::Write;
use thiserror::Error;

/// Why a row is not written.
#[derive(Debug, Error, Drop)]
pub enum RowFault {
    /// Out of memory.
    #[error("memory")]
    Memory,
    /// The output cannot be written.
    #[error("output")]
    Output(io::Error),
}

impl From<AllocError> for RowFault {
    fn from(_: AllocError) -> RowFault {
        RowFault::Memory
    }
}

impl From<io::Error> for RowFault {
    fn from(error: io::Error) -> RowFault {
        RowFault::Output(error)
    }
}

/// Writes a row as a line.
pub fn write_row<R: Display + Serialize, W: Write>(
    alloc: Global,
    form: Form,
    row: &R,
    writer: &mut W,
) -> Result<(), RowFault>
    ensures { OnOk result (IfSome (with_newline (R.output row.now))
        (Appends (followed form (W.contents writer.old)) (followed form (W.contents writer.new)))) }
{
    match form {
        Form::Text => writeln!(writer, "{row}")?,
        Form::Json => write_object(alloc, row, writer)?,
    }
    Ok(())
}

/// Writes a row as a JSON object, and the end of the line. Writes nothing if memory is refused.
pub fn write_object<R: Serialize, W: Write>(
    alloc: Global,
    row: &R,
    writer: &mut W,
) -> Result<(), RowFault> {
    let Ok(object) = serde_json::to_string(alloc, row) else {
        return Err(RowFault::Memory);
    };
    writeln!(writer, "{object}")?;
    Ok(())
}

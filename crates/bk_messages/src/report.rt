//! Reports of why a command on a directory ends early.

ghost use Rattle.std.specs.Prelude.{◌≡◌};
ghost use Rattle.bk_messages.specs.Quiet.{IsQuiet};

use crate::dead::DeadFault;
use crate::fault::{CommandFault, way_on};
use crate::object::object_of;
use crate::rows::{RowFault, write_object};
use bk_disk::FileFault;
use bk_inspect::Form;
use std::alloc::Global;
use std::io;
use std::io::Write;

/// Reports why a command ends early, with the call of the system that is the reason; nothing if
/// nobody reads the output any more.
pub fn end_early<E: Write>(
    alloc: Global,
    form: Form,
    fault: &CommandFault,
    call: &Option<FileFault>,
    errors: &mut E,
)
    ensures quiet { IsQuiet fault.now → E.contents errors.new ≡ E.contents errors.old }
{
    match fault {
        CommandFault::Reported => {}
        CommandFault::Output(error) if error.kind() == io::ErrorKind::BrokenPipe => {}
        _ => tell(alloc, form, fault, call, errors),
    }
}

/// Reports why a file does not name deleted ledgers.
pub fn tell_dead<E: Write>(alloc: Global, form: Form, fault: DeadFault, errors: &mut E) {
    tell(alloc, form, &CommandFault::Dead(fault), &None, errors);
}

/// Reports why a command ends early, with the call of the system that is the reason, if it is
/// known, and the way on if there is one: in two lines, or in one object. A failed write is ignored.
fn tell<E: Write>(
    alloc: Global,
    form: Form,
    fault: &CommandFault,
    call: &Option<FileFault>,
    errors: &mut E,
) {
    let _ = match form {
        Form::Text => tell_text(fault, call, errors),
        Form::Json => tell_object(alloc, fault, call, errors),
    };
}

/// Reports it as text.
fn tell_text<E: Write>(
    fault: &CommandFault,
    call: &Option<FileFault>,
    errors: &mut E,
) -> Result<(), RowFault> {
    match call {
        Some(call) => writeln!(errors, "fault {fault}: {call}")?,
        None => writeln!(errors, "fault {fault}")?,
    }
    if let Some(way_on) = way_on(fault) {
        writeln!(errors, "help: {way_on}")?;
    }
    Ok(())
}

/// Reports it as an object.
fn tell_object<E: Write>(
    alloc: Global,
    fault: &CommandFault,
    call: &Option<FileFault>,
    errors: &mut E,
) -> Result<(), RowFault> {
    let text = fault.to_string(alloc)?;
    write_object(alloc, &object_of(alloc, fault, call, &text)?, errors)
}

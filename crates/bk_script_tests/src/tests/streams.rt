//! Writers that fail.

use super::DEFAULTS;
use bk_script::run_script;
use std::alloc::Global;
use std::io;
use std::io::Write;

/// Fails at a write, counted from 0, or at the flush.
#[derive(Drop)]
struct FailsAt {
    write: usize,
    flush: bool,
    taken: Vec<u8>,
}

impl Write for FailsAt {
    fn write(&mut self, buf: &[u8]) -> io::Result<usize> {
        if self.write == 0 {
            return Err(io::Error::from(io::ErrorKind::Other));
        }
        self.write -= 1;
        self.taken.extend_from_slice(buf)?;
        Ok(buf.len())
    }

    fn flush(&mut self) -> io::Result<()> {
        if self.flush {
            return Err(io::Error::from(io::ErrorKind::Other));
        }
        Ok(())
    }
}

/// Output of a script of two lines.
const OUTPUT: &[u8] = b"accepted\nno flush\n";

#[test]
fn a_write_that_fails_ends_the_program(rt: HostRuntime) {
    let enough = writes_needed(rt.alloc());
    assert!(rt; 0 < enough && enough < 20, "{enough} writes are enough");
    let status = status_with(rt.alloc(), enough, true);
    assert!(rt; status == 1, "status {status} where the flush fails");
}

/// Returns the number of writes that the script needs, if the status is 1 with fewer; otherwise 20.
fn writes_needed(alloc: Global) -> usize {
    for write in 0..20 {
        match status_with(alloc, write, false) {
            0 => return write,
            1 => {}
            _ => return 20,
        }
    }
    20
}

/// Returns the status of the script on a writer that takes N writes, or 2 if the writer got
/// anything but a prefix of the output, or not all of it with status 0, or the error stream got
/// anything.
fn status_with(alloc: Global, write: usize, flush: bool) -> u8 {
    let (status, taken, told) = run_on(alloc, write, flush);
    let is_right = match status {
        0 => taken.as_slice() == OUTPUT,
        _ => OUTPUT.starts_with(taken.as_slice()),
    };
    if is_right && told.is_empty() {
        status
    } else {
        2
    }
}

/// Runs the script on a writer that takes N writes. Returns the status, what was written, and what
/// the error stream got.
fn run_on(alloc: Global, write: usize, flush: bool) -> (u8, Vec<u8>, Vec<u8>) {
    let mut errors = Vec::new(alloc);
    let mut writer = FailsAt {
        write,
        flush,
        taken: Vec::new(alloc),
    };
    let mut script = "add 1 0 a\npublish\n".as_bytes();
    let status = run_script(alloc, DEFAULTS, &[], &mut script, &mut writer, &mut errors);
    (status, writer.taken, errors)
}

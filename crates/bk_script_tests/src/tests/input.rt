//! Inputs of the largest size, and of the largest number of reads.

use super::DEFAULTS;
use bk_script::run_script;
use std::alloc::Global;
use std::io;
use std::io::Read;

/// Returns a byte, then line feeds, at most `most` bytes per read; then ends or fails.
#[derive(Drop)]
struct Feeds {
    first: u8,
    left: usize,
    most: usize,
    fails: bool,
}

impl Read for Feeds {
    fn read(&mut self, buf: &mut [u8]) -> io::Result<usize> {
        if self.left == 0 && self.fails {
            return Err(io::Error::from(io::ErrorKind::Other));
        }
        let count = buf.len().min(self.most).min(self.left);
        buf[..count].fill(b'\n');
        if count > 0 {
            buf[0] = self.first;
            self.first = b'\n';
        }
        self.left -= count;
        Ok(count)
    }
}

/// First byte, number of bytes, largest read, whether reads then fail, and the line of the error. The
/// longest input has a bad first line, so that its other lines need not be parsed.
static INPUTS: [(u8, usize, usize, bool, &str); 6] = [
    (b'x', 16_777_216, 65_536, false, "line 1: bad command\n"),
    (b'x', 16_777_217, 65_536, false, "read fault\n"),
    (b'\n', 1_048_575, 1, false, ""),
    (b'\n', 1_048_576, 1, false, "read fault\n"),
    (b'x', 0, 1, true, "read fault\n"),
    (b'x', 100, 7, true, "read fault\n"),
];

/// Runs the script of a reader on a store without options. Returns whether it prints this error, with
/// status 1, or none, with status 0.
fn ends_with(alloc: Global, reader: &mut Feeds, told: &str) -> bool {
    let mut output = Vec::new(alloc);
    let mut errors = Vec::new(alloc);
    let ended = run_script(alloc, DEFAULTS, &[], reader, &mut output, &mut errors);
    ended == u8::from(!told.is_empty()) && output.is_empty() && errors.as_slice() == told.as_bytes()
}

#[test]
fn the_input_has_bounds(rt: HostRuntime) {
    for (first, left, most, fails, told) in &INPUTS {
        let mut feeds = Feeds {
            first: *first,
            left: *left,
            most: *most,
            fails: *fails,
        };
        assert!(rt;
            ends_with(rt.alloc(), &mut feeds, told),
            "{left} bytes, {most} a read"
        );
    }
}

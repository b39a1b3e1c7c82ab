//! A line on the terminal that is rewritten as the work goes on.

use std::fmt::Display;
use std::io::{IsTerminal, Write};
use std::time::{Duration, Instant};

/// The least time between two writes of the line, in milliseconds.
const PAUSE: u64 = 100;

/// Clears the line of the cursor.
const WIPE: &[u8] = b"\r\x1b[K";

/// A line on the error stream of the process, if that is a terminal; else nothing is written. It is
/// cleared when this is dropped.
pub struct Line {
    rt: HostRuntime,
    /// When the work began; `None` if there is none.
    begun: Option<Instant>,
    /// When it was written last; `None` if it is not shown.
    written: Option<Instant>,
}

impl Line {
    /// Returns a line that is not shown.
    pub fn new(rt: &HostRuntime) -> Line {
        Line {
            rt: *rt,
            begun: None,
            written: None,
        }
    }

    /// Begins the work. Nothing is shown if the error stream is no terminal, or there is no clock.
    pub fn begin(&mut self) {
        self.end();
        if self.rt.stderr().is_terminal() {
            self.begun = Instant::now(&self.rt).ok();
        }
    }

    /// Returns the time since the work began, if it is at least `patience` milliseconds and the
    /// line is to be written again.
    pub fn due(&mut self, patience: u64) -> Option<Duration> {
        let begun = self.begun?;
        let now = Instant::now(&self.rt).ok()?;
        let since = now.duration_since(begun);
        let is_fresh = match self.written {
            Some(written) => now.duration_since(written) < Duration::from_millis(PAUSE),
            None => false,
        };
        if since < Duration::from_millis(patience) || is_fresh {
            return None;
        }
        self.written = Some(now);
        Some(since)
    }

    /// Writes the line. A failed write is ignored.
    pub fn write<D: Display>(&self, text: &D) {
        let mut errors = self.rt.stderr();
        let _ = errors.write_all(WIPE);
        let _ = write!(errors, "{text}");
        let _ = errors.flush();
    }

    /// Ends the work, and clears the line.
    pub fn end(&mut self) {
        self.begun = None;
        if self.written.is_some() {
            self.written = None;
            wipe(&self.rt);
        }
    }
}

impl Drop for Line {
    fn drop(mut self) {
        self.end();
        let Line {
            rt: _,
            begun: _,
            written: _,
        } = self;
    }
}

/// Clears the line of the cursor of the terminal.
fn wipe(rt: &HostRuntime) {
    let mut errors = rt.stderr();
    let _ = errors.write_all(WIPE);
    let _ = errors.flush();
}

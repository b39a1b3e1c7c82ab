//! The progress of a compaction, on a terminal.

use bk_messages::Line;
use bk_offline_gc::{Swept, Watch};
use std::fmt;
use std::fmt::{Display, Formatter};

/// The line of a compaction on the terminal.
#[derive(Drop)]
pub(crate) struct Progress {
    line: Line,
}

impl Progress {
    /// Begins the compaction.
    pub(crate) fn new(rt: &HostRuntime) -> Progress {
        let mut line = Line::new(rt);
        line.begin();
        Progress { line }
    }
}

impl Watch for Progress {
    fn see(&mut self, swept: &Swept) {
        if let Some(since) = self.line.due(0) {
            self.line.write(&Far {
                swept: *swept,
                seconds: since.as_secs(),
            });
        }
    }
}

/// The progress of a compaction after this time.
#[derive(Clone, Copy)]
struct Far {
    swept: Swept,
    seconds: u64,
}

impl Display for Far {
    fn fmt<W: fmt::Write>(&self, f: &mut Formatter<W>) -> fmt::Result {
        let swept = &self.swept;
        let megabytes = swept.read / 1_000_000;
        write!(
            f,
            "{} of {} logs, {} entries copied, {megabytes} MB read",
            swept.removed, swept.planned, swept.moved
        )?;
        match megabytes.checked_div(self.seconds) {
            Some(rate) => write!(f, ", {rate} MB/s"),
            None => Ok(()),
        }
    }
}

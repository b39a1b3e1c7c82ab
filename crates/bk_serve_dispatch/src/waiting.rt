//! How far ahead a session reads its input.

use crate::input::Input;
use std::rt::Clock;
use std::sync::atomic::{AtomicBool, Ordering};
use std::thread;
use std::time::Duration;

/// Number of frames that are read at most while nothing is under way.
const THERE: u32 = 256;

/// Number of nanoseconds between two looks for input.
const LOOK: u64 = 20_000;

/// Number of looks after which input is not waited for any more.
const LOOKS: u32 = 50_000;

/// Which frames are read before the replies to earlier reads are written.
#[derive(Clone, Copy)]
pub(crate) enum Ahead<'a, H> {
    /// Those that are there.
    There,
    /// Those that come while reads are carried out, until `done` is set.
    UnderWay { clock: &'a H, done: &'a AtomicBool },
}

impl<H: Clock> Ahead<'_, H> {
    /// Returns whether reads are carried out meanwhile.
    pub(crate) fn is_under_way(&self) -> bool {
        matches!(self, Ahead::UnderWay { .. })
    }

    /// Returns the greatest number of frames that are read.
    pub(crate) fn most(&self) -> u32 {
        match self {
            Ahead::There => THERE,
            Ahead::UnderWay { .. } => u32::MAX,
        }
    }

    /// Returns whether a frame is to be read: the first if nothing is under way, and one that is
    /// there. While reads are carried out, waits for one.
    pub(crate) fn is_next<R: Input>(&self, reader: &R, is_first: bool) -> bool {
        match self {
            Ahead::There => is_first || reader.has_frame(),
            Ahead::UnderWay { clock, done } => comes(*clock, done, reader),
        }
    }
}

/// Waits until a frame is there. Returns false if `done` is set before.
fn comes<H: Clock, R: Input>(clock: &H, done: &AtomicBool, reader: &R) -> bool {
    for _ in 0..LOOKS {
        if done.load(Ordering::SeqCst) {
            return false;
        }
        if reader.is_there() {
            return true;
        }
        thread::sleep(clock, Duration::from_nanos(LOOK));
    }
    false
}

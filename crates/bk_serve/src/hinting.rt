//! Hints are written in a thread of their own, which reads the files of the directory and never the
//! store. So no request waits for a hint.

use crate::hint_round::HintRounds;
use crossbeam_channel::{Receiver, Sender, bounded};
use std::io::Write;
use std::rt::Clock;
use std::sync::Wait;
use std::thread;
use std::thread::Threads;
use std::time::Duration;

/// The longest time, in seconds, that the end of the program waits for hints.
const LAST: u64 = 5;

/// The thread that writes hints.
#[derive(Drop)]
pub(crate) struct Hinting {
    /// Has the thread write the hints of logs that were sealed. It ends when this is dropped.
    pub(crate) due: Sender<()>,
    /// Is disconnected when the thread has ended.
    pub(crate) ended: Receiver<()>,
}

impl Hinting {
    /// Begins a thread that writes the hints of the directory at a path, at once and whenever they are
    /// due. `None` if there is no memory or no thread for it.
    pub(crate) fn new<H: Threads + Wait + Copy + Drop + Send + 'static>(
        rt: &HostRuntime,
        handle: H,
        path: &str,
    ) -> Option<Hinting> {
        let alloc = rt.alloc();
        let rounds = HintRounds::new(rt, path).ok()?;
        let (due, calls) = bounded(alloc, 1).ok()?;
        let (ends, ended) = bounded(alloc, 1).ok()?;
        // The thread is not joined: it may be reading logs when the session has ended.
        match thread::spawn(&handle, move || hint_all(&handle, rounds, calls, ends)) {
            Ok(_writing) => Some(Hinting { due, ended }),
            Err(_) => None,
        }
    }
}

/// Writes the hints that are missing, first and each time that a call comes. Notes the first failure
/// on the error stream.
fn hint_all<H: Wait>(handle: &H, mut rounds: HintRounds, calls: Receiver<()>, _ends: Sender<()>) {
    rounds.go();
    for _ in handle.forever() {
        if calls.recv(handle).is_err() {
            return;
        }
        rounds.go();
    }
}

/// Waits until the thread has ended, for which its `due` must be dropped. Gives up after some
/// seconds: the next session writes the hints that are missing then.
pub(crate) fn wait_for_end<H: Wait + Clock>(handle: &H, ended: &Receiver<()>) {
    let _ = ended.recv_timeout(handle, Duration::from_secs(LAST));
}

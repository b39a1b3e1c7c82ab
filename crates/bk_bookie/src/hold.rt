//! How the lock is taken.

use std::hint::spin_loop;
use std::sync::{Mutex, MutexGuard, Wait};

/// How often the lock is tried before a caller waits for it.
const TRIES: u32 = 14;

/// How often the pause behind a try doubles.
const DOUBLINGS: u32 = 8;

/// Takes the lock. A critical section is mostly shorter than a sleep and a wake, so the lock is
/// tried for some microseconds before it is waited for.
pub(crate) fn hold<'a, T, R: Wait>(rt: &R, lock: &'a Mutex<T>) -> MutexGuard<'a, T> {
    for number in 0..TRIES {
        if let Some(guard) = lock.try_lock() {
            return guard;
        }
        for _ in 0..1u32 << number.min(DOUBLINGS) {
            spin_loop();
        }
    }
    lock.lock(rt)
}

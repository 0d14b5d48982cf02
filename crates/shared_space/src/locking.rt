//! How a thread takes a lock that others hold only briefly.

use std::hint::spin_loop;
use std::sync::{Mutex, MutexGuard, Wait};
use std::thread::yield_now;

/// How often a thread tries with pauses between its tries, before it lets other threads run between them.
const TRIES: u32 = 1000;

/// How often it tries so, before the system puts it to sleep.
const YIELDS: u32 = 1000;

/// How many pauses are between two tries. The thread that has the lock is then less often disturbed by those that ask
/// for it, and makes its next call while what it touched is still near its processor.
const PAUSES: u32 = 16;

/// Takes the lock. A call on the space takes far less time than it takes to put a thread to sleep and to wake it up, so a
/// thread that finds the lock taken tries again for a while.
pub(crate) fn locked<'a, T, R: Wait>(rt: &R, mutex: &'a Mutex<T>) -> MutexGuard<'a, T> {
    for tried in 0..TRIES + YIELDS {
        if let Some(guard) = mutex.try_lock() {
            return guard;
        }
        if tried < TRIES {
            pause();
        } else {
            yield_now();
        }
    }
    mutex.lock(rt)
}

/// Lets some time pass.
fn pause() {
    for _ in 0..PAUSES {
        spin_loop();
    }
}

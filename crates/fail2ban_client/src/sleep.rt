//! Pauses.

use std::thread;
use std::time::{Clock, Duration};

/// Sleeps for so many milliseconds.
pub fn sleep(rt: &impl Clock, ms: u32) {
    thread::sleep(rt, Duration::from_millis(u64::from(ms)));
}

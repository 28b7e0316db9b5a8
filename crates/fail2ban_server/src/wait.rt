//! The waiting of a pause.

use crate::clock::nap;
use crate::commands::Commands;
use crate::watched::Watched;
use gate_socket::GateSocket;
use std::alloc::AllocGlobal;
use std::process::Processes;
use std::rt::Files;
use std::time::Clock;

/// How often logs are looked after, in microseconds.
const STEP: u64 = 25_000;

/// How much longer than asked for a nap is, in microseconds, by the slack that the system's timers have where none was set.
const SLACK: u64 = 50;

/// Waits for so many microseconds, and no longer than until a command has ended, a log has changed or a client asks for something. Those
/// commands that were ended are forgotten.
pub(crate) fn wait<R: Files + Clock + Processes + AllocGlobal>(
    rt: &R,
    gate: &mut Option<GateSocket>,
    commands: &mut Commands<R::Started>,
    watched: &Watched,
    most: u64,
) {
    let _ = commands.reap();
    let step = STEP.saturating_mul(watched.steps());
    let mut slept: u64 = 0;
    let mut looked: u64 = 0;
    // Each nap takes a microsecond at least, so there are no more of them.
    for _ in 0..most {
        if slept >= most || commands.has_ended() {
            return;
        }
        let micros = micros_behind(slept, commands.has_some()).min(most.saturating_sub(slept));
        if nap_at(rt, gate, micros) {
            return;
        }
        slept = slept.saturating_add(micros).saturating_add(SLACK);
        if slept.saturating_sub(looked) >= step {
            looked = slept;
            if watched.has_changed(rt) {
                return;
            }
        }
    }
}

// Sleeps for so many microseconds, or until a client asks for something. Whether one did.
fn nap_at<R: Clock>(rt: &R, gate: &mut Option<GateSocket>, micros: u64) -> bool {
    match gate {
        Some(gate) => gate.wait(rt, micros),
        None => {
            nap(rt, micros);
            false
        }
    }
}

// How many microseconds to sleep at a time, by those that were slept. Most commands end within some milliseconds, and their lane waits: so
// long a nap is as short as the system has them.
fn micros_behind(slept: u64, has_commands: bool) -> u64 {
    if !has_commands {
        STEP
    } else if slept < 20_000 {
        1
    } else {
        5_000
    }
}

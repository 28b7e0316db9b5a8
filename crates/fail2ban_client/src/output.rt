//! Standard output, which may be one that would block: a pipe or a terminal that another program made so.
ghost use Rattle.std.specs.Prelude.{◌≤◌, IfOk, length};

use crate::sleep::sleep;
use f2b_world::{Outside, Said, Sink, raised};
use std::io;
use std::io::{ErrorKind, Print};
use std::time::Clock;

/// For how long standard output is waited for before it counts as one that cannot be written: so often ..
const MOST_WAITS: u32 = 6_000;

/// .. so many milliseconds, which are a minute.
const WAIT_MS: u32 = 10;

/// Writes some of the bytes, once standard output takes any.
fn write_some<R: Print + Clock>(rt: &R, bytes: &[u8]) -> io::Result<usize>
    ensures { IfOk result (λ n. n ≤ length bytes.now) }
{
    for _ in 0..MOST_WAITS {
        match rt.write_some(bytes) {
            Err(e) if e.kind() == ErrorKind::WouldBlock => sleep(rt, WAIT_MS),
            answer => return answer,
        }
    }
    Err(ErrorKind::WouldBlock.into())
}

/// Writes all of the bytes.
pub fn write_whole<R: Print + Clock>(rt: &R, bytes: &[u8]) -> io::Result<()> {
    let mut rest = bytes;
    while !rest.is_empty() {
        let count = write_some(rt, rest)?;
        if count == 0 {
            return Err(ErrorKind::WriteZero.into());
        }
        rest = &rest[count..];
    }
    Ok(())
}

/// Standard output, which counts how often it could not be written.
#[derive(Drop)]
pub struct Output<R>
where
    R: Print + Clock + Drop,
{
    rt: R,
    /// Whether the program was started without a standard output. What is opened later may then have its number.
    closed: bool,
    faults: u64,
}

impl<R> Output<R>
where
    R: Print + Clock + Drop,
{
    /// Without a fault so far. It has to be made before anything is opened.
    pub fn new(rt: R) -> Output<R> {
        // To write nothing fails only where there is nothing to write to.
        let closed = rt.write_some(b"").is_err();
        Output {
            rt,
            closed,
            faults: 0,
        }
    }
}

impl<R> Outside for Output<R>
where
    R: Print + Clock + Drop,
{
    ghost use Rattle.std.specs.Prelude.{None};
    ghost use Rattle.fail2ban_client.specs.Counted.{of_sink};

    ghost stands = { λ w. record { told = None; talk = None; shelf = None; faults = of_sink w.faults } };
}

impl<R> Sink for Output<R>
where
    R: Print + Clock + Drop,
{
    /// Writes at once, or as soon as standard output takes more.
    fn say(&mut self, bytes: &[u8]) -> Said {
        if !self.closed && write_whole(&self.rt, bytes).is_ok() {
            return Said::Done;
        }
        self.faults = raised(self.faults);
        Said::Failed
    }
}

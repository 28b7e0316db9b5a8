//! Whoever sits at a terminal: standard error, where that is one.

use std::io::{IsTerminal, Write};
use std::rt::Stderr;

/// Standard error, where it is a terminal. A script sees nothing of what is written here.
#[derive(Drop)]
pub struct Terminal {
    errors: Stderr,
}

impl Terminal {
    /// `None` where standard error is no terminal.
    pub fn of(errors: Stderr) -> Option<Terminal> {
        if errors.is_terminal() {
            Some(Terminal { errors })
        } else {
            None
        }
    }

    /// Nothing follows where it cannot be written.
    pub fn write(&self, text: &str) {
        let mut errors = &self.errors;
        let _ = errors.write_all(text.as_bytes());
    }
}

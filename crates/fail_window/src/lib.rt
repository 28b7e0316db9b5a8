//! The failures of one address that can still fill it.
//!
//! A window is made when an address fails for the first time, is given each further failure, and tells at which of them the address
//! is full: `maxretry` failures of which the latest is less than `findtime` seconds after the earliest, in whatever order they came.
//! It answers for the whole list of failures since it began, and keeps the last two `findtime` of them, in order of time: one that
//! stands alone in itself, since most addresses fail once, and several in a block. A failure costs a search by halves, the room that
//! it takes, and what is too old and goes: at most `maxretry` looks where it came late, and one where it came in order. A window never
//! knows the clock, a jail or a ban: the caller says what time it is.
//!
//! ```text
//! let mut window = Window::new(alloc, 600, 3);            // findtime 600, maxretry 3
//! window.add(first, 100)?;                                // of the time 100: false
//! window.add(second, 300)?;                               // of the time 300: false
//! window.add(third, 699)?                                 // of the time 699: true, and false of 700
//! ```
#![tactic(auto)]

mod kept;
mod runs;
mod window;

pub use window::Window;

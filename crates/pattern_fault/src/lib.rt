//! Where a pattern that is refused is at fault, in the text as it was written, and what to do without what other dialects have.
//!
//! A pattern is refused by what its tags expand to, and there the library tells the place of a fault. A person wants it in the text that
//! stands in his file. A caller hands in that text. Nothing here knows a jail, a file or a terminal.
//!
//! ```text
//! fault_line(alloc, "from <HOST>(?=:)")?   // at byte 12 of the pattern, (?=:): there is no look-around: ..
//! ```
#![tactic(auto)]

mod construct;
mod fault;
mod line;
mod place;

pub use line::fault_line;

//! Views and inputs as bytes: what a server stores, each value in one spelling (docs/journal.md).
//!
//! A caller writes a view or an input behind bytes, and reads the one that stands at the front of bytes, with the length of its
//! spelling. What is written is read again, whatever follows it; what is read can be stored, and is spelt just so. Where no beginning of
//! the bytes is a spelling, the answer is the place of the first field that has no reading. Version 1 is read too, whose failures
//! have no line; what is written is version 2. Reading takes time by the number of bytes and, for the addresses of bans, by sorting
//! them; no memory is taken for a number that was read. Nothing here knows a file, or whether a view is one that a server can have left.
//!
//! ```text
//! let mut out = Bytes::new(alloc);
//! write_input(alloc, &input, &mut out)?;                     // a Tick at 200: c8 01 00 00
//! let (again, len) = read_input(alloc, out.as_slice())?;     // the same input, and 4
//! ```
#![tactic(auto)]

mod actions;
mod bans;
mod dates;
mod definitions;
mod distinct;
mod failures;
mod happenings;
mod hosts;
mod input_spelling;
mod inputs;
mod jails;
mod jobs;
mod lanes;
mod logs;
mod names;
mod open_failures;
mod outcomes;
mod read_error;
mod rules;
mod version;
mod view_spelling;
mod views;

pub use input_spelling::{input_len, read_input, read_input_v1, write_input};
pub use read_error::ReadError;
pub use view_spelling::{read_view, read_view_v1, view_len, write_view};

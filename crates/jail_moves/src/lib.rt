//! One jail as code keeps it: the windows of its failures, the table of its bans, its totals and the places of its logs.
//!
//! A caller sees a `Room` as what it holds, and with the jail's definition that stands for the model's middle state of the jail. Each
//! call is a move of the model: a failure that may count, a ban or an unban by command, the ends by time, other limits, another
//! definition. A move takes time by what it changes, and over many moves not by what the jail holds. Nothing here opens a log, runs a
//! command or knows the clock: the caller says what was found, and what time it is.
//!
//! ```text
//! let mut room = Room::fresh(alloc, &definition)?;
//! let serial = room.found(&definition, &mut told, now, word, serial, &failure)?;   // told: it counts, and perhaps a ban begins
//! room.end_due(&definition, &mut told, now)?;                                      // told: each ban that ends
//! let view = room.view(&definition)?;
//! ```
#![tactic(auto)]

mod addresses;
mod bans;
mod ends;
mod lately;
mod matches;
#[cfg(test)]
mod matches_tests;
mod room;
mod stored;
mod sweep;
mod totals;
mod unbans;
mod watches;
mod windows;
#[cfg(test)]
mod windows_tests;

pub use room::Room;
pub use totals::Totals;

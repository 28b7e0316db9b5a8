//! The addresses that a jail never bans.
//!
//! A caller sees a set as the list of its masks, in the order in which they were given. A jail asks for each address that it
//! finds in a log. A look-up asks once for each number of bits that some mask of the address's family has, and takes no memory. Nothing
//! here knows a jail.
//!
//! ```text
//! let set = IgnoreSet::new(alloc, &masks)?;       // of 192.0.2.0/28 and 2001:db8::/32
//! set.holds(addr)                                 // true of 192.0.2.15 and of 2001:db8::7, false of 192.0.2.16
//! ```
#![tactic(auto)]

mod ignore_set;
mod prefix_table;

pub use crate::ignore_set::IgnoreSet;

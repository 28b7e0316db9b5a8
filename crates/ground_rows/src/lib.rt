//! Worked values of the plain types: addresses and masks, lines that are kept, spans of bans, and that each type copies.
//!
//! There is nothing here but tests, of what no clause of `f2b_base` says, and that its calls succeed where there is memory.
//!
//! ```text
//! ("2001:DB8:0::1", "2001:db8::1")     // an address as it is written, and as it is printed
//! (2, 3600)                            // two bans were before, and the next one lasts so many seconds
//! ```
#![tactic(auto)]

#[cfg(test)]
mod addresses;
#[cfg(test)]
mod copies;
#[cfg(test)]
mod lines;
#[cfg(test)]
mod spans;

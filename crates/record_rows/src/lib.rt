//! Views and inputs that are read, cut, turned and broken, from spellings that were made by the grammar in docs/journal.md.
//!
//! There is nothing here but tests: that `record_codec` reads and writes what that page says, and where bytes are bad.
//!
//! ```text
//! ("a zone of seconds", 16, 2, &[0x9d, 0x38], 16)     // two bytes of the view at 16 go, these come, and the place 16 is bad then
//! ```
#![tactic(auto)]

#[cfg(test)]
mod inputs;
#[cfg(test)]
mod read;
#[cfg(test)]
mod spellings;
#[cfg(test)]
mod views;

//! Small files and trees of a configuration, with what they mean, what they come to, and what the values in them are.
//!
//! There is nothing here but tests: that what `ini_interp` is proved to do is what a user expects of it, row by row.
//!
//! ```text
//! ("[a]\nx = a ; b\n", "[a]|x=a/|")     // a file, and its sections with their items
//! ```
#![tactic(auto)]

#[cfg(test)]
mod files;
#[cfg(test)]
mod merges;
#[cfg(test)]
mod rows;
#[cfg(test)]
mod values;

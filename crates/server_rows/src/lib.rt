//! Whole runs of the server over a world in memory, as tables of what they say.
//!
//! There is nothing here but tests: that what a run is proved to do is what a user expects of it, row by row. A row is what a run is given
//! and what comes of it, as a reader would write it down:
//!
//! ```text
//! Row {
//!     words: "--conf /c --turns 3",
//!     conf: &[],
//!     log: &[],
//!     readings: &[1000],
//!     fails: &[],
//!     status: 0,
//!     said: "1000 INFO Server ready\n",
//! }
//! ```
#![tactic(auto)]

#[cfg(test)]
mod callers;
#[cfg(test)]
mod clients;
#[cfg(test)]
mod commands;
#[cfg(test)]
mod limits;
#[cfg(test)]
mod play;
#[cfg(test)]
mod stops;
#[cfg(test)]
mod tests;
#[cfg(test)]
mod transcript;
#[cfg(test)]
mod trees;

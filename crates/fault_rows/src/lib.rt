//! One worked run of the server over a world in memory, with each of its calls failing in turn, and with a stop behind each of them.
//!
//! There is nothing here but tests: that what a run is proved to do is what a user expects of it where something outside fails. The run
//! is played once without a fault, and its calls are kept; so a call that fails is named by its place among them, and what follows is
//! told by what kind of call it is.
//!
//! ```text
//! let (status, world) = run_failing(alloc, at)?;      // the call at that place fails
//! ```
#![tactic(auto)]

#[cfg(test)]
mod calls;
#[cfg(test)]
mod checks;
#[cfg(test)]
mod disks;
#[cfg(test)]
mod faults;
#[cfg(test)]
mod follows;
#[cfg(test)]
mod seen;
#[cfg(test)]
mod stops;
#[cfg(test)]
mod worked;

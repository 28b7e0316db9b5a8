//! Whole tests of patterns and filters over files in memory, as tables of what they say.
//!
//! There is nothing here but tests: that what the tester is proved to do is what a user expects of it, row by row.
#![tactic(auto)]

#[cfg(test)]
mod dates;
#[cfg(test)]
mod faults;
#[cfg(test)]
mod limits;
#[cfg(test)]
mod logs;
#[cfg(test)]
mod refusals;
#[cfg(test)]
mod reports;
#[cfg(test)]
mod row;
#[cfg(test)]
mod shown;

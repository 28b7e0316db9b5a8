//! Worked lines with their dates: which text of a line is its date, and which second that is.
//!
//! There is nothing here but tests: that what `date_detect` is proved to do is what docs/dates.md tells, row by row.
//!
//! ```text
//! ("Mar  1 10:00:00 mx smtpd[204]: login", Some((0, 15, 1_709_287_200)))      // from byte 0 to 15, and the second
//! ```
#![tactic(auto)]

#[cfg(test)]
mod dates;
#[cfg(test)]
mod rows;

//! Dates of log lines: where a date lies in a line, and which moment it names.
//!
//! The dates of a jail are a list of forms, each a pattern and what its groups mean. They are built once, by one call on the
//! outside for each pattern, and tried in their order: the first form whose leftmost match is a date and a time gives the date. A
//! searcher borrows the forms, keeps what its searches learn, and goes through many lines. Weekdays and fractions of a second are
//! read over. Nothing here knows a clock: the caller says what time it is, since a date may leave its year out.
//!
//! ```text
//! let dates = Dates::build(alloc, world, &DateSpec::Default)?;       // the six usual forms
//! let mut searcher = dates.searcher(alloc)?;
//! searcher.found("Mar  1 10:00:00 mx smtpd[204]: login", now, 0)     // from 0 to 15, and which second that is in UTC
//! ```
#![tactic(auto)]

mod build;
mod calendar;
mod error;
mod fields;
mod form;
mod names;
mod search;
mod usual;

pub use build::Dates;
pub use date_words::is_date_pattern;
pub use error::BuildError;
pub use search::{Found, Searcher};

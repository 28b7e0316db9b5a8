//! The filter of a jail: what a line of a log says of a host.
//!
//! A filter is built once from the texts of a jail, by one call on the outside for each of its patterns. It does not search by
//! itself. A searcher borrows it, keeps what its searches learn, and goes through many lines of one look. Nothing here knows a
//! file, a clock or the failures so far: the caller says what time it is.
//!
//! ```text
//! let filter = Filter::build(alloc, world, &jail)?;
//! let mut searcher = filter.searcher(alloc)?;
//! match searcher.found(&ignore, line, now, jail.findtime)? {
//!     Finding::Failure { addr, time, .. } => ..,              // counts at that time
//!     _ => ..,                                                // ignored, without a date, missed, or no failure that counts
//! }
//! ```
#![tactic(auto)]

mod build;
mod error;
mod finding;
mod judge;
mod make;
mod part;
mod search;

pub use build::Filter;
pub use error::{BuildKind, PatternError, PatternPlace};
pub use finding::Finding;
pub use search::Searcher;

//! The pattern tester: which lines of a log a pattern or a filter finds.
//!
//! A caller hands in words, the time, files and a sink. One text is said: the report of a test, or why there is none. A line counts as it
//! does in the server, by the same filter. A log is read piece by piece, so a test takes as little memory as its longest line, and
//! that of the lines which the words want to be shown. Nothing here writes a file, and nothing knows where standard output is.
//!
//! ```text
//! let status = regex_tool(alloc, words.as_slice(), now, &mut files, &mut output); // words: mail.log, filter.d/smtpd.conf
//! ExitCode::from(status.number())                                                 // 0 where the report was said
//! ```
#![tactic(auto)]

mod build;
mod checks;
mod counts;
mod decided;
mod definition;
mod kind;
mod log;
mod log_file;
mod log_test;
mod notes;
mod other_zone;
mod output;
mod pattern;
mod refusal;
mod report;
mod results;
mod search;
mod section;
mod sections;
mod seen;
mod shows;
mod status;
mod target;
mod tool;
mod trial;
mod warnings;
mod words;
mod zone;

pub use kind::ToolKind;
pub use pattern::{pattern_at, wants_detail};
pub use status::ToolStatus;
pub use tool::regex_tool;

//! Date patterns of a user: which texts are one, and what their directives stand for.
//!
//! A directive is a `%` and a letter, and stands for a piece of a pattern; all else of a date pattern is a pattern itself. A
//! configuration is refused by the same rule by which a pattern is built later. Nothing here knows a line, or what a match of a pattern
//! says.
//!
//! ```text
//! is_date_pattern("%d/%b/%Y")               // true
//! is_date_pattern("%H:%M:%S")               // false: it has no day
//! expand(alloc, "%d/%b/%Y")?                // a pattern with a group for each of the three
//! ```
#![tactic(auto)]

mod directive;
mod pattern;

pub use pattern::{expand, is_date_pattern};

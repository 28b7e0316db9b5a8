//! Moments as a clock of a zone shows them: `2024-03-01T12:30:00+02:30`, by ISO 8601.
//!
//! A caller hands in seconds since 1970 and how far the zone is ahead of UTC, and gets text. Each moment that a server may know has
//! its text. Nothing here knows a clock, or where a moment came from.
//!
//! ```text
//! push_moment(&mut text, 9_000, 1_709_287_200)?;    // 2024-03-01T12:30:00+02:30
//! push_offset(&mut text, 9_000)?;                   // +0230
//! ```
#![tactic(auto)]

mod moment;

pub use moment::{push_moment, push_offset};

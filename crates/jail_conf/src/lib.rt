//! Definitions of jails from the files of a configuration.
//!
//! A caller hands in a tree of files and gets what it comes to, or the refusal that is told first, as `specs/` defines them: there the
//! order of lines is the order of refusals. Nothing here reads a file, or builds a pattern.
//!
//! ```text
//! match conf(alloc, &tree) {
//!     Ok(settings) => ..,                                // settings.defs.jails are those that are enabled
//!     Err(Fail::Refused(error)) => error.text(alloc)?,   // Configuration refused: jail.conf [sshd] bantime: BadTime
//!     Err(Fail::NoMemory) => ..,
//! }
//! ```
#![tactic(auto)]

mod actions;
mod addresses;
mod choices;
mod conf_error;
mod configuration;
mod counts;
mod dates;
mod each;
mod fail;
mod filter;
mod ignored;
mod jails;
mod laws;
mod limits;
mod lines;
mod logs;
mod merged_bases;
mod numbers;
mod options;
mod patterns;
mod printed;
mod reading;
mod rule;
mod seconds;
mod sections;
mod settings;
mod source;
mod sources;
mod terms;
mod texts;
mod times;
mod unsupported;
mod words;
mod zones;

pub use conf_error::{ConfError, ConfFail, ConfKind};
pub use configuration::conf;
pub use fail::Fail;
pub use laws::conf_law;
pub use seconds::str2sec;
pub use settings::Settings;

//! The logs of all jails: how far each is followed, and which failures are found in what a look brings.
//!
//! A caller makes a set of the filters and definitions of its jails, adds the logs of each, and goes through them turn by turn: which
//! log is next, what to look for in it, and what a look brought, which the set turns into the input that it makes. The searchers of a
//! jail live as long as its filter, since they learn from line to line. A set never opens a log or reads a clock: the caller looks, and
//! says what time it is. It never keeps what was found, nor the bytes of a log but for a line that is not yet whole.
//!
//! ```text
//! let mut set = LogSet::new(alloc, &filters, definitions)?;
//! set.add(alloc, &jail.name, &watch.path, &watch.place)?;
//! while let Some(log) = set.next(from) {
//!     let ask = set.ask(log);
//!     let look = .. a look at set.path(log) as ask says ..;
//!     let taken = set.take(alloc, log, &look, now)?; // taken.read is an input of the model, or none
//!     from = log + 1;
//! }
//! ```
#![tactic(auto)]

mod change;
mod followers;
mod jail_search;
mod log;
mod searches;
mod set;
mod shown;
mod taken;

pub use log::Log;
pub use set::LogSet;
pub use taken::Taken;

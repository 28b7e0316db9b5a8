//! A configuration that was read, from the names for its wildcards to the logs that are followed: as a run starts, and as a client asks for it.
//!
//! `first_turn` goes on from what was loaded: it reads the clock, lists the directory of each path with a wildcard, and takes the
//! configuration with the paths that were found as an input, where it changes something. `follow` then follows the logs of its jails,
//! each from the place that the core keeps of it. A reload takes the same way by `name_paths`, `configure` and `follow`. Nothing here reads a
//! configuration, loads a journal, builds a pattern or looks at a log.
//!
//! ```text
//! let clocked = first_turn(alloc, world, plan, &settings, engine)?;   // the engine that was loaded; `Server ready` is said
//! let logs = follow(alloc, filters.as_slice(), &clocked)?;            // the filters of `run_trees`, in the order of the jails
//!
//! let named = name_paths(alloc, world, &settings, clocked)?;          // a reload: its lines are said behind what the configuration tells
//! let clocked = configure(alloc, world, named, lines.as_slice())?;
//! ```
#![tactic(auto)]

mod begin;
mod found;
mod input;
mod listing;
mod logs;
mod named;
mod names;
mod naming;
mod path;
mod paths;
mod walk;

pub use begin::first_turn;
pub use input::configure;
pub use logs::follow;
pub use named::Named;
pub use names::name_paths;

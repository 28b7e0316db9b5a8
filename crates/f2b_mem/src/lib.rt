//! Outsides in memory, for tests: a world, a link and files.
//!
//! A world plays a script and keeps its history as long as it finds memory for it. Where it finds none it answers so, and is as it was.
//! Where a call has no answer for that, or a command that starts finds no room beside those that run, the world tells nothing from
//! then on and goes on with its script.
//!
//! ```text
//! let script = Script { readings, trees, changes, children, clients, fails, image };
//! let mut world = MemWorld::new(alloc, script)?;
//! let status = server(alloc, words.as_slice(), &mut world);
//! world.events()                            // each call that was made, with its answer, in order
//! ```
#![tactic(auto)]

mod answers;
mod book;
mod calls;
mod children;
mod commands;
mod content;
mod counts;
mod disk;
mod events;
mod file_tree;
mod files;
mod gate;
mod giving;
mod link;
mod logs;
mod names;
mod paths;
mod pieces;
mod plans;
mod progress;
mod readings;
mod script;
mod slots;
mod stage;
mod torn;
mod tree_bounds;
mod trees;
mod waiting;
mod world;

pub use files::MemFiles;
pub use link::MemLink;
pub use script::{ChildPlan, ClientPlan, FileChange, Image, Script};
pub use world::MemWorld;

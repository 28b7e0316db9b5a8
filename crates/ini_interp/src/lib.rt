//! Configuration files in sections of items: what one file means, what the files of a base come to, and what an item's value is.
//!
//! A caller hands in the bytes of a file and gets its sections in order, each with its items in order, or the first fault with its
//! line. Or it hands in a tree of files and the name of a base, and gets what the files of that base come to, each laid over those
//! before it, with what they include. In both the values are raw; a value is asked for by its name in a scope of sections, and has its
//! references replaced then. Nothing here knows a directory, or what an item is good for.
//!
//! ```text
//! let files = FileTable::new(alloc, &tree)?;
//! let sections = merge_in(alloc, &files, "jail")?;                 // jail.conf, jail.d/*.conf, jail.local, jail.d/*.local
//! let bantime = value(alloc, &sections, &scope, "bantime")?;       // of the first section of the scope that has it, if one has
//! ```
#![tactic(auto)]

mod error;
mod file;
mod file_table;
mod frames;
mod includes;
mod items;
mod joins;
mod known;
mod laws;
mod line;
mod merge_error;
mod merges;
mod names;
mod parts;
mod sections;
mod value_error;
mod values;

pub use error::IniError;
pub use file::read_file;
pub use file_table::FileTable;
pub use laws::merge_law;
pub use merge_error::MergeError;
pub use merges::{merge, merge_in};
pub use sections::Sections;
pub use value_error::InterpError;
pub use values::value;

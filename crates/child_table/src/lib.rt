//! The children of a server: the commands that run for its jobs, each under the number of its job, and the checks that have passed.
//!
//! A caller polls the children one after the other, by the numbers of their jobs, takes out what has ended, notes that a check has
//! passed, and starts others while there is room. There are never more than 16, nor two for one job. A check that has passed serves one
//! try: it is used up as the command is started, also where that fails. Nothing here starts or ends a command, knows how one ended, or
//! reads a clock: the caller says what time it is.
//!
//! ```text
//! let mut children = ChildTable::new(alloc);
//! children.start(Child { job: 7, task: Task::Check, since: now, timeout: 60 })?; // where it is not full, and 7 does not run
//! let child = children.at(0);                        // .. it is asked whether it has ended, and it has, with status 0 ..
//! children.end(0);
//! children.pass(child.job)?;                         // so the command may be started
//! ```
#![tactic(auto)]

mod child;
mod numbers;
mod place;
mod table;

pub use child::{Child, MOST_CHILDREN, Task};
pub use table::ChildTable;

//! `Reread`, what comes of a configuration that was read again.

use child_table::ChildTable;
use client_table::ClientTable;
use filter_regex::Filter;
use log_set::Log;
use run_steps::{Clocked, Running};

/// What a run keeps of a server whose configuration was taken again: the searches of its logs are gone with the filters that they borrowed.
#[derive(Drop)]
pub struct Reloaded {
    pub clocked: Clocked,
    /// The logs as they were followed before.
    pub logs: Vec<Log>,
    pub children: ChildTable,
    pub clients: ClientTable,
    pub left: u64,
}

/// What comes of a configuration that was read again.
#[derive(Drop)]
pub enum Reread<'f> {
    /// It is not taken: all is as before, but that the client was told why.
    Untaken(Running<'f>),
    /// It is taken, with a filter for each of its jails.
    Taken {
        filters: Vec<Filter>,
        reloaded: Reloaded,
    },
}

//! `Running`, what a run keeps over its turns.

use crate::clocked::Clocked;
use child_table::ChildTable;
use client_table::ClientTable;
use log_set::LogSet;

/// What a run keeps of a server over its turns. The filters of the logs are borrowed.
#[derive(Drop)]
pub struct Running<'f> {
    pub clocked: Clocked,
    pub logs: LogSet<'f>,
    /// The commands that run, and the checks that have passed.
    pub children: ChildTable,
    /// The clients that are connected.
    pub clients: ClientTable,
    /// The turns that are left, this one among them.
    pub left: u64,
}
